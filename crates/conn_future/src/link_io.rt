//! Reading and writing for a connection, as far as its link allows without waiting.

ghost use Rattle.std.specs.Prelude.{◌≡◌, ◌≢◌, ◌<◌, ◌≤◌, [], Err, None, Ok, OnErr, OnOk, length};
ghost use Rattle.kap_base.specs.Words.{HasRisen};
ghost use Rattle.kap_io.specs.Tries.{MayStop};
ghost use Rattle.kap_http.specs.Reading.{Gives};
ghost use Rattle.http_dialog.specs.Dialogs.{room};
ghost use Rattle.http_dialog.specs.Driving.{GoesLost, GoesOn};
ghost use Rattle.http_dialog.specs.declared.input.TheConstants.{HELD_LIMIT};

use crate::try_fault::TryFault;
use http_dialog::Dialog;
use kap_base::NoMemory;
use kap_io::{Stop, TryLink};

/// How many bytes are read at once.
pub(crate) const PIECE: usize = 16_384;

/// Writes what is due, as far as the link takes it.
pub(crate) fn flush<L: TryLink>(link: &mut L, dialog: &mut Dialog) -> Result<(), Stop>
    ensures due { OnOk result (dialog.new.due ≡ []) }
    ensures some { OnErr result (dialog.new.due ≢ []) }
    ensures held { dialog.new.held ≡ dialog.old.held }
    ensures left { dialog.new.left ≡ dialog.old.left }
    ensures ending { dialog.new.ending ≡ dialog.old.ending }
    ensures goes { GoesOn (L.left link.old) (L.left link.new) (L.written link.old)
        (L.written link.new) dialog.old dialog.new }
    ensures cause { MayStop (L.write_faults link.old) (L.write_faults link.new)
        (L.read_faults link.old) (L.read_faults link.new) (L.waits link.old) (L.waits link.new) result }
{
    'writing: while !dialog.is_quiet() {
        match link.try_write(dialog.due()) {
            Ok(count) => dialog.sent(count),
            Err(stop) => return Err(stop),
        }
    }
    Ok(())
}

/// Reads the next bytes for a connection that waits for them, or tells it that no more come. `piece` is where
/// they are read to.
pub(crate) fn fill<L: TryLink>(
    link: &mut L,
    dialog: &mut Dialog,
    piece: &mut [u8; PIECE],
) -> Result<(), TryFault>
    requires open { dialog.old.ending ≡ None }
    requires waits { Gives dialog.old.held (Ok None) }
    requires short { length dialog.old.held < HELD_LIMIT }
    ensures goes { OnOk result (GoesOn (L.left link.old) (L.left link.new) (L.written link.old)
        (L.written link.new) dialog.old dialog.new) }
    ensures lost { OnErr result (GoesLost (L.left link.old) (L.left link.new) (L.written link.old)
        (L.written link.new) dialog.old) }
    ensures due { OnOk result (dialog.new.due ≡ dialog.old.due) }
    ensures left { dialog.new.left ≡ dialog.old.left }
    ensures more { OnOk result (room dialog.new < room dialog.old) }
    ensures pending { result ≡ Err TryFault.Waits → (dialog.new ≡ dialog.old) ×
        GoesOn (L.left link.old) (L.left link.new) (L.written link.old) (L.written link.new)
        dialog.old dialog.old }
    ensures waited { result ≡ Err TryFault.Waits → HasRisen (L.waits link.old) (L.waits link.new) }
    ensures failed { result ≡ Err TryFault.Failed →
        HasRisen (L.read_faults link.old) (L.read_faults link.new) }
    ensures reads { L.read_faults link.old ≤ L.read_faults link.new }
    ensures writes { L.write_faults link.old ≤ L.write_faults link.new }
    ensures later { L.waits link.old ≤ L.waits link.new }
{
    let most = dialog.free().min(PIECE);
    let (front, _) = piece.split_at_mut(most);
    let count = match link.try_read(front) {
        Ok(count) => count,
        Err(Stop::Waits) => return Err(TryFault::Waits),
        Err(Stop::Failed) => return Err(TryFault::Failed),
    };
    if count == 0 {
        dialog.close();
        return Ok(());
    }
    let (came, _) = front.split_at(count);
    match dialog.take_in(came) {
        Ok(()) => Ok(()),
        Err(NoMemory) => Err(TryFault::NoMemory),
    }
}
