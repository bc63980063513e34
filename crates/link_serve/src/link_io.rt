//! Reading and writing for a connection.

ghost use Rattle.std.specs.Prelude.{◌≡◌, ◌<◌, ◌≤◌, [], Ok, None, IfErr, OnErr, OnOk, length};
ghost use Rattle.kap_base.specs.Words.{HasRisen};
ghost use Rattle.kap_io.specs.Causes.{HasCause};
ghost use Rattle.kap_http.specs.Reading.{Gives};
ghost use Rattle.http_dialog.specs.Dialogs.{room};
ghost use Rattle.http_dialog.specs.Driving.{GoesLost, GoesOn};
ghost use Rattle.http_dialog.specs.declared.input.TheConstants.{HELD_LIMIT};

use crate::fill_fault::FillFault;
use http_dialog::Dialog;
use kap_io::{Failed, Link};

/// How many bytes are read at once.
pub(crate) const PIECE: usize = 16_384;

/// Writes all bytes that are due.
pub(crate) fn flush<L: Link>(link: &mut L, dialog: &mut Dialog) -> Result<(), Failed>
    ensures due { OnOk result (dialog.new.due ≡ []) }
    ensures held { dialog.new.held ≡ dialog.old.held }
    ensures left { dialog.new.left ≡ dialog.old.left }
    ensures ending { dialog.new.ending ≡ dialog.old.ending }
    ensures goes { GoesOn (L.left link.old) (L.left link.new) (L.written link.old)
        (L.written link.new) dialog.old dialog.new }
    ensures cause { HasCause (L.write_faults link.old) (L.write_faults link.new) result }
    ensures other { L.read_faults link.old ≤ L.read_faults link.new }
{
    'writing: while !dialog.is_quiet() {
        let count = link.write(dialog.due())?;
        dialog.sent(count);
    }
    Ok(())
}

/// Reads the next bytes for a connection that waits for them, or tells it that no more come. `piece` is where
/// they are read to.
pub(crate) fn fill<L: Link>(
    link: &mut L,
    dialog: &mut Dialog,
    piece: &mut [u8; PIECE],
) -> Result<(), FillFault>
    requires open { dialog.old.ending ≡ None }
    requires waits { Gives dialog.old.held (Ok None) }
    requires short { length dialog.old.held < HELD_LIMIT }
    ensures goes { OnOk result (GoesOn (L.left link.old) (L.left link.new) (L.written link.old)
        (L.written link.new) dialog.old dialog.new) }
    ensures lost { OnErr result (GoesLost (L.left link.old) (L.left link.new) (L.written link.old)
        (L.written link.new) dialog.old) }
    ensures due { OnOk result (dialog.new.due ≡ dialog.old.due) }
    ensures more { OnOk result (room dialog.new < room dialog.old) }
    ensures failed { IfErr result (λ e. e ≡ FillFault.Failed →
        HasRisen (L.read_faults link.old) (L.read_faults link.new)) }
    ensures reads { L.read_faults link.old ≤ L.read_faults link.new }
    ensures writes { L.write_faults link.old ≤ L.write_faults link.new }
{
    let most = dialog.free().min(PIECE);
    let (front, _) = piece.split_at_mut(most);
    let count = link.read(front)?;
    if count == 0 {
        dialog.close();
        return Ok(());
    }
    let (came, _) = front.split_at(count);
    dialog.take_in(came)?;
    Ok(())
}
