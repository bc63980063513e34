ghost use Rattle.std.specs.Prelude.{◌≡◌, ◌≤◌, ◌++◌, ◌∷◌, [], List, None, Some, true, IsTrue, IsErr, OnErr, is_err};
ghost use Rattle.kap_base.specs.Words.{HasRisen};
ghost use Rattle.kap_io.specs.CallRecords.{Counts, MayFail, Notes, is_next_failing, is_stopped};
ghost use Rattle.kap_io.specs.Causes.{HasCause};
ghost use Rattle.kap_io.specs.Fakes.{next_count};
ghost use Rattle.kap_io.specs.declared.disk_work.DiskCall.{DiskCall};

use crate::disk::Part;
use crate::disk_work::{DiskCall, DiskWork};
use crate::failed::Failed;
use crate::mem_source::is_listed;
use std::alloc::Global;
use std::marker::Model;

/// The record of the calls of a disk in memory, and which of them fail.
#[derive(Drop)]
pub(crate) struct DiskCalls {
    noted: Vec<DiskCall>,
    fails: Vec<u64>,
    stop: Option<u64>,
    count: u64,
    faults: u64,
}

impl Model for DiskCalls {
    ghost use Rattle.std.specs.Prelude.{vec_capacity};
    ghost use Rattle.kap_io.specs.CallRecords.{CallRecord};

    ghost Value = { CallRecord };

    ghost view = { λ c. record {
      noted = c.noted.items;
      fails = c.fails.items;
      stop = c.stop;
      count = c.count;
      faults = c.faults;
      room = vec_capacity c.noted;
    } };
}

impl DiskCalls {
    /// No calls yet. Those with these numbers will fail, the first call being number 1.
    pub(crate) fn new(alloc: Global, fails: Vec<u64>) -> Self
        ensures { record result { room = 0 } ≡ record {
          noted = [];
          fails = fails.items;
          stop = None;
          count = 0;
          faults = 0;
          room = 0;
        } }
    {
        DiskCalls {
            noted: Vec::new(alloc),
            fails,
            stop: None,
            count: 0,
            faults: 0,
        }
    }

    /// The calls on the record, in their order.
    pub(crate) fn noted(&self) -> &[DiskCall]
        ensures { result.now ≡ self.now.noted }
    {
        &self.noted
    }

    /// The call with this number fails, and each later one.
    pub(crate) fn stop_at(&mut self, call: u64)
        ensures { self.new ≡ record self.old { stop = Some call } }
    {
        self.stop = Some(call);
    }

    /// Counts a call and puts it on the record. It fails where it is one of those that fail, and else only
    /// where memory is wanted for the record.
    pub(crate) fn admit(&mut self, part: Part, work: DiskWork) -> Result<(), Failed>
        ensures noted { Notes self.old.noted self.new.noted part work (is_err result) }
        ensures fails { IsTrue (is_next_failing self.old) → IsErr result }
        ensures only { OnErr result (MayFail self.old) }
        ensures counts { Counts self.old self.new (is_err result) }
        ensures cause { HasCause self.old.faults self.new.faults result }
    {
        self.count = self.count.saturating_add(1);
        let fails = is_stopped(self.stop, self.count) || is_listed(&self.fails, self.count);
        let call = DiskCall {
            part,
            work,
            done: !fails,
        };
        let noted = self.noted.push(call).is_ok();
        if fails || !noted {
            self.faults = self.faults.saturating_add(1);
            return Err(Failed);
        }
        Ok(())
    }

    /// Counts a call that fails for want of memory, and leaves it out of the record.
    pub(crate) fn refuse(&mut self) -> Failed
        ensures noted { self.new.noted ≡ self.old.noted }
        ensures counts { Counts self.old self.new true }
        ensures later { self.old.faults ≤ self.new.faults }
        ensures rose { HasRisen self.old.faults self.new.faults }
    {
        self.count = self.count.saturating_add(1);
        self.faults = self.faults.saturating_add(1);
        Failed
    }

    /// Takes the last call off the record, since it fails for want of memory.
    pub(crate) fn take_back(&mut self) -> Failed
        ensures noted { (calls : List DiskCall) (last : DiskCall)
            → self.old.noted ≡ calls ++ last ∷ [] → self.new.noted ≡ calls }
        ensures others { record self.new { noted = [] }
            ≡ record self.old { noted = []; faults = next_count self.old.faults } }
        ensures later { self.old.faults ≤ self.new.faults }
        ensures rose { HasRisen self.old.faults self.new.faults }
    {
        let _ = self.noted.pop();
        self.faults = self.faults.saturating_add(1);
        Failed
    }
}

/// Whether calls fail from a number on that isn't behind this one.
fn is_stopped(stop: Option<u64>, call: u64) -> bool
    ensures { result ≡ is_stopped stop call }
{
    match stop {
        None => false,
        Some(first) => first <= call,
    }
}
