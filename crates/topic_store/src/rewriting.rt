//! Rewriting a store into its other log.

ghost use Rattle.std.specs.Prelude.{◌≡◌, ◌+◌, ◌%◌, ◌==◌, ℕ, List, false, IfErr, IfOk, IsTrue};
ghost use Rattle.kap_io.specs.Disk.{Elsewhere, On};
ghost use Rattle.kap_io.specs.Moments.{Moments, Quiet};
ghost use Rattle.gate_log.specs.Head.{IsHead};
ghost use Rattle.store_records.specs.declared.rec.Rec.{Rec};
ghost use Rattle.store_kept.specs.Keeping.{AreValid, kept_of};
ghost use Rattle.store_compact.specs.Staying.{staying};
ghost use Rattle.topic_store.specs.Faults.{IsPlacedAt, IsPlacedFrom, IsPlacedInHeadOr};
ghost use Rattle.topic_store.specs.Opening.{StoreCause};
ghost use Rattle.topic_store.specs.Rewriting.{IsWritten, RewritesOrNot, RunOrNot, other_log, stands_old_or_new};
ghost use Rattle.topic_store.specs.Stores.{IsOn, current, store_of};

use crate::copying::copy_records;
use crate::fault::{StoreFault, fault_in};
use gate_log::{Log, make, read_head, switch};
use kap_io::{Disk, Part};
use std::alloc::Global;
use store_kept::Kept;

/// The other one of the two logs.
fn other_log(part: Part) -> Part
    ensures { result ≡ other_log part }
{
    match part {
        Part::Left => Part::Right,
        Part::Right => Part::Left,
        Part::Head => Part::Left,
    }
}

/// The log that a head with so many open gates names.
fn current(run: u64) -> Part
    ensures { result ≡ current run }
{
    if run % 2 == 0 {
        return Part::Left;
    }
    Part::Right
}

fn is_same(a: Part, b: Part) -> bool
    ensures yes { IsTrue result → a ≡ b }
    ensures no { a ≡ b → IsTrue result }
{
    a == b
}

/// How many gates of the head are open, where it names this log.
fn read_run<D: Disk>(disk: &mut D, part: Part) -> Result<u64, StoreFault>
    ensures found { IsTrue D.tells → (run : ℕ) → IsHead run (D.seen disk.old Part.Head)
        → part ≡ current run → RunOrNot run result }
    ensures named { IfOk result (λ run. part ≡ current run) }
    ensures place { IfErr result (IsPlacedAt Part.Head 0) }
    ensures quiet { IsTrue D.tells
        → Quiet D.seen D.moment D.may_leave D.left_since disk.old disk.new }
    ensures cause { StoreCause (D.faults disk.old) (D.faults disk.new) result }
{
    let run = match read_head(disk) {
        Ok(run) => run,
        Err(fault) => return Err(fault_in(Part::Head, fault)),
    };
    if !is_same(part, current(run)) {
        return Err(StoreFault::NotStore {
            part: Part::Head,
            offset: 0,
        });
    }
    Ok(run)
}

/// Makes the other log that of the records that stay. The head stays.
fn write_other<D: Disk>(
    alloc: Global,
    old: &Log,
    all: &Kept,
    disk: &mut D,
) -> Result<(Log, Kept), StoreFault>
    requires { old.now.spent ≡ false }
    ensures written { IsTrue D.tells → (rs : List Rec)
        → IsOn rs (D.seen disk.old) (D.may_leave disk.old) (store_of old.now (kept_of all.now))
        → RewritesOrNot (λ done. IsWritten rs (D.seen disk.new) (D.may_leave disk.new)
        (store_of old.now (kept_of all.now)) done.0 (kept_of done.1)) result }
    ensures any_moment { IsTrue D.tells → (rs : List Rec)
        → IsOn rs (D.seen disk.old) (D.may_leave disk.old) (store_of old.now (kept_of all.now))
        → Moments D.moment D.may_leave D.left_since disk.old disk.new
        (On (other_log old.now.part) (λ _ _. Unit {0})) }
    ensures elsewhere { IsTrue D.tells
        → Elsewhere (other_log old.now.part) (D.seen disk.old) (D.seen disk.new) }
    ensures log { IfOk result (λ done.
        (done.0.part ≡ other_log old.now.part) × (done.0.spent ≡ false)) }
    ensures place { IfErr result (IsPlacedFrom old.now.part 8) }
    ensures valid { IfOk result (λ done. AreValid (kept_of done.1)) }
    ensures cause { StoreCause (D.faults disk.old) (D.faults disk.new) result }
{
    let part = other_log(old.part());
    match make(alloc, disk, part) {
        Ok(begun) => copy_records(alloc, old, all, begun, disk),
        Err(fault) => Err(fault_in(part, fault)),
    }
}

/// Makes the other log that of the records that stay, and lets the head name it.
pub(crate) fn rewrite_store<D: Disk>(
    alloc: Global,
    old: &Log,
    all: &Kept,
    disk: &mut D,
) -> Result<(Log, Kept), StoreFault>
    requires { old.now.spent ≡ false }
    ensures rewritten { IsTrue D.tells → (rs : List Rec)
        → IsOn rs (D.seen disk.old) (D.may_leave disk.old) (store_of old.now (kept_of all.now))
        → RewritesOrNot (λ done. IsOn (staying rs) (D.seen disk.new) (D.may_leave disk.new)
        (store_of done.0 (kept_of done.1))) result }
    ensures switched { IsTrue D.tells → (rs : List Rec)
        → IsOn rs (D.seen disk.old) (D.may_leave disk.old) (store_of old.now (kept_of all.now))
        → (run : ℕ) → IsHead run (D.seen disk.old Part.Head)
        → IfOk result (λ _. IsHead (run + 1) (D.seen disk.new Part.Head)) }
    ensures any_moment { IsTrue D.tells → (rs : List Rec)
        → IsOn rs (D.seen disk.old) (D.may_leave disk.old) (store_of old.now (kept_of all.now))
        → Moments D.moment D.may_leave D.left_since disk.old disk.new (stands_old_or_new rs) }
    ensures log { IfOk result (λ done.
        (done.0.part ≡ other_log old.now.part) × (done.0.spent ≡ false)) }
    ensures place { IfErr result (IsPlacedInHeadOr old.now.part) }
    ensures valid { IfOk result (λ done. AreValid (kept_of done.1)) }
    ensures cause { StoreCause (D.faults disk.old) (D.faults disk.new) result }
{
    let run = read_run(disk, old.part())?;
    let (log, kept) = write_other(alloc, old, all, disk)?;
    match switch(disk, run) {
        Ok(()) => Ok((log, kept)),
        Err(fault) => Err(fault_in(Part::Head, fault)),
    }
}
