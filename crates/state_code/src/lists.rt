//! Lists: a number of items, and the items.

ghost use Rattle.std.specs.Prelude.{◌≡◌, ◌++◌, OnOk, length, take};
ghost use Rattle.state_code.specs.Laws.{list_spelled};
ghost use Rattle.state_code.specs.Places.{ReadsOrNot};
ghost use Rattle.state_code.specs.Spelling.{FitsList, spell_list, read_list, read_many};

use crate::cursor::Cursor;
use crate::fault::CodeFault;
use crate::fields::put_u32;
use crate::spelled::Spelled;
use kap_base::{Bytes, ItemList, NoMemory};
use std::alloc::Global;

/// Appends the number of items as a `u32`, and the items, one after the other. After NoMemory some of them
/// may stand at the end of `to`. 2^32 items or more are want of memory.
pub fn put_items<T: Spelled>(items: &[T], to: &mut Bytes) -> Result<(), NoMemory>
    ensures bytes { OnOk result (to.new ≡ to.old ++ spell_list T.spell items.now) }
    ensures fits { OnOk result (FitsList T.fits items.now) }
    ensures before { take (length to.old) to.new ≡ to.old }
{
    let Ok(count) = u32::try_from(items.len()) else {
        return Err(NoMemory);
    };
    put_u32(to, count)?;
    'putting: for item in items {
        item.append_spelling(to)?;
    }
    Ok(())
}

/// Reads so many items.
fn read_items<T: Spelled + Drop>(
    alloc: Global,
    count: u32,
    from: &mut Cursor,
) -> Result<ItemList<T>, CodeFault>
    ensures { ReadsOrNot (read_many T.read count) from.old from.new result }
{
    let mut items = ItemList::new(alloc);
    'reading: for _ in 0..count {
        let item = T::read_spelling(alloc, from)?;
        items.push(item)?;
    }
    Ok(items)
}

/// The number of items as a `u32`, and the items.
impl<T: Spelled + Drop> Spelled for ItemList<T> {
    ghost fits = { FitsList T.fits };

    ghost spell = { spell_list T.spell };

    ghost read = { read_list T.read };

    ghost spelled = { list_spelled T.spelled };

    fn append_spelling(&self, to: &mut Bytes) -> Result<(), NoMemory> {
        put_items(self.as_slice(), to)
    }

    fn read_spelling(alloc: Global, from: &mut Cursor) -> Result<ItemList<T>, CodeFault> {
        let count = from.u32()?;
        read_items(alloc, count, from)
    }
}
