//! The states of a snapshot as bytes.

ghost use Rattle.state_code.specs.Places.{ReadsOrNot};
ghost use Rattle.store_records.specs.States.{GathersOrNot, read_states};

use kap_base::Bytes;
use state_code::{CodeFault, Cursor, put_bytes, put_u32};
use std::alloc::Global;

/// Reads so many byte strings, and gives their number and them as they stand there.
fn gather(alloc: Global, count: u32, from: &mut Cursor) -> Result<Bytes, CodeFault>
    ensures { GathersOrNot count from.old from.new result }
{
    let mut states = Bytes::new(alloc);
    put_u32(&mut states, count)?;
    'reading: for _ in 0..count {
        let state = from.bytes(alloc)?;
        put_bytes(&mut states, state.as_slice())?;
    }
    Ok(states)
}

/// Reads a number, and so many byte strings, and gives all of their bytes.
pub(crate) fn read_states(alloc: Global, from: &mut Cursor) -> Result<Bytes, CodeFault>
    ensures { ReadsOrNot read_states from.old from.new result }
{
    let count = from.u32()?;
    gather(alloc, count, from)
}
