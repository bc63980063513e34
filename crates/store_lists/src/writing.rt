//! Lines are written in pieces.

ghost use Rattle.std.specs.Prelude.{OnErr, OnOk};
ghost use Rattle.std.specs.List.{flat_map};
ghost use Rattle.kap_io.specs.Causes.{HasCause};
ghost use Rattle.kap_io.specs.Pieces.{AppendsPrefix};
ghost use Rattle.store_lists.specs.Writing.{HasWritten, Lists, PutsLines, WriteCause};

use crate::fault::ListFault;
use crate::lines::Listed;
use kap_base::Bytes;
use kap_io::{Failed, Sink, write_all};
use std::alloc::Global;

/// From how many bytes on text that is due is written.
const DUE_LIMIT: usize = 65_536;

/// Writes the text that is due, where it is a whole piece.
pub(crate) fn write_piece<K: Sink>(out: &mut K, text: &mut Bytes) -> Result<(), Failed>
    ensures ok { OnOk result
        (HasWritten text.old text.new (K.written out.old) (K.written out.new)) }
    ensures err { OnErr result (AppendsPrefix (K.written out.old) (K.written out.new) text.old) }
    ensures cause { HasCause (K.faults out.old) (K.faults out.new) result }
{
    if DUE_LIMIT <= text.len() {
        write_all(out, text.as_slice())?;
        text.clear();
    }
    Ok(())
}

/// Writes the rest of the text that is due.
pub(crate) fn write_rest<K: Sink>(out: &mut K, text: &Bytes) -> Result<(), ListFault>
    ensures lists { Lists result text.now (K.written out.old) (K.written out.new) }
    ensures cause { WriteCause (K.faults out.old) (K.faults out.new) result }
{
    match write_all(out, text.as_slice()) {
        Ok(()) => Ok(()),
        Err(Failed) => Err(ListFault::WriteFault),
    }
}

/// Adds lines to the text that is due, and writes this, where it is a whole piece.
pub(crate) fn put_lines<T: Listed, K: Sink>(
    alloc: Global,
    item: &T,
    text: &mut Bytes,
    out: &mut K,
) -> Result<(), ListFault>
    ensures puts { PutsLines result (T.lines item.now) text.old text.new
        (K.written out.old) (K.written out.new) }
    ensures cause { WriteCause (K.faults out.old) (K.faults out.new) result }
{
    item.put(alloc, text)?;
    match write_piece(out, text) {
        Ok(()) => Ok(()),
        Err(Failed) => Err(ListFault::WriteFault),
    }
}

/// Adds the lines of each, one behind the other.
pub(crate) fn put_all<T: Listed, K: Sink>(
    alloc: Global,
    items: &[T],
    text: &mut Bytes,
    out: &mut K,
) -> Result<(), ListFault>
    ensures puts { PutsLines result (flat_map T.lines items.now) text.old text.new
        (K.written out.old) (K.written out.new) }
    ensures cause { WriteCause (K.faults out.old) (K.faults out.new) result }
{
    'putting: for item in items {
        if let Err(fault) = put_lines(alloc, item, text, out) {
            return Err(fault);
        }
    }
    Ok(())
}
