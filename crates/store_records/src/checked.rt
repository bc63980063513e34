//! The bodies of records: checked, with no list of a batch's points, and read where they are known to be
//! records'.

ghost use Rattle.std.specs.Prelude.{◌≡◌, Some, IfOk};
ghost use Rattle.store_records.specs.Batches.{CheckedOf};
ghost use Rattle.store_records.specs.Records.{IsBodyOf};
ghost use Rattle.store_records.specs.declared.rec.Rec.{Rec};

use crate::batches::{checked_batch, known_batch};
use crate::rec::Rec;
use crate::records::read_record;
use kap_base::NoMemory;
use std::alloc::Global;

/// What some bytes are the body of.
#[derive(Debug, Drop)]
pub enum Checked {
    /// A batch of so many points, which are ungrouped and of its database and policy.
    Batch(u64),
    /// Any record.
    Other(Rec),
}

/// What these bytes, all of them, are the body of; `None` exactly where they are the body of no record. A
/// batch is told by the number of its points, which are read one at a time.
pub fn check_record(alloc: Global, body: &[u8]) -> Result<Option<Checked>, NoMemory>
    ensures { CheckedOf body.now result }
{
    if let Some((5, rest)) = body.split_first() {
        return match checked_batch(alloc, rest)? {
            Some(count) => Ok(Some(Checked::Batch(count))),
            None => Ok(None),
        };
    }
    match read_record(alloc, body)? {
        Some(rec) => Ok(Some(Checked::Other(rec))),
        None => Ok(None),
    }
}

/// The record whose body these bytes are, which is known: a batch's lines are read, and not tested.
pub fn known_record(alloc: Global, body: &[u8]) -> Result<Option<Rec>, NoMemory>
    ensures { (r : Rec) → IsBodyOf r body.now → IfOk result (λ found. found ≡ Some r) }
{
    match body.split_first() {
        Some((5, rest)) => known_batch(alloc, rest),
        _ => read_record(alloc, body),
    }
}
