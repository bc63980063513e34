ghost use Rattle.std.specs.Prelude.{◌≡◌, IfOk};

use crate::memory::NoMemory;
use std::alloc::Global;

/// What can be copied, where there is memory.
pub trait Duplicate: Sized {
    /// An equal value.
    fn copy(&self, alloc: Global) -> Result<Self, NoMemory>
        ensures { IfOk result (λ copy. copy ≡ self.now) };
}

impl Duplicate for u8 {
    fn copy(&self, alloc: Global) -> Result<u8, NoMemory> {
        let _ = alloc;
        Ok(*self)
    }
}

/// Equal values, in order.
pub fn copies<T: Duplicate + Drop>(alloc: Global, items: &[T]) -> Result<Vec<T>, NoMemory>
    ensures { IfOk result (λ copies. copies.items ≡ items.now) }
{
    let mut copies = Vec::with_capacity(alloc, items.len())?;
    'copying: for item in items {
        copies.push(item.copy(alloc)?)?;
    }
    Ok(copies)
}
