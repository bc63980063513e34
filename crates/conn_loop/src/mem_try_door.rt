ghost use Rattle.std.specs.Prelude.{◌≡◌, ◌++◌, ◌↔◌, [], Some, Err, IfNone, IfOk, IsTrue, length, option_to_list};
ghost use Rattle.kap_io.specs.Doors.{Admits};
ghost use Rattle.conn_loop.specs.Doors.{MayStopAt};
ghost use Rattle.conn_loop.specs.Fakes.{TryDoorCounts, door_fails, door_waits};

use crate::mem_ready::is_listed;
use crate::try_door::TryDoor;
use kap_io::{MemPollLink, Stop};
use std::collections::VecDeque;
use std::marker::Model;

/// A door in memory that doesn't wait: its links come in the order of a list, and it fails, or would have to
/// wait, at the calls that two other lists name. Where a call is in both, it fails.
#[derive(Drop)]
pub struct MemTryDoor {
    links: VecDeque<MemPollLink>,
    waits: Vec<u64>,
    fails: Vec<u64>,
    calls: u64,
    faults: u64,
    waited: u64,
}

impl Model for MemTryDoor {
    ghost use Rattle.conn_loop.specs.Fakes.{TryDoorState};

    ghost Value = { TryDoorState };

    ghost view = { λ d. record {
      links = d.links.items;
      waits = d.waits.items;
      fails = d.fails.items;
      calls = d.calls;
      faults = d.faults;
      waited = d.waited;
    } };
}

impl MemTryDoor {
    /// A door at which these links come, the first one first, and which would have to wait, or fails, at the
    /// calls with these numbers, the first call being number 1.
    pub fn new(links: Vec<MemPollLink>, waits: Vec<u64>, fails: Vec<u64>) -> Self
        ensures state { result ≡ record {
          links = links.items;
          waits = waits.items;
          fails = fails.items;
          calls = 0;
          faults = 0;
          waited = 0;
        } }
        ensures left { ⟦<MemTryDoor as TryDoor<MemPollLink>>⟧.left result ≡ Some (length links.items) }
        ensures faults { ⟦<MemTryDoor as TryDoor<MemPollLink>>⟧.faults result ≡ 0 }
        ensures waited { ⟦<MemTryDoor as TryDoor<MemPollLink>>⟧.waits result ≡ 0 }
    {
        MemTryDoor {
            links: VecDeque::from(links),
            waits,
            fails,
            calls: 0,
            faults: 0,
            waited: 0,
        }
    }
}

impl TryDoor<MemPollLink> for MemTryDoor {
    ghost left = { λ d. Some (length d.links) };

    ghost faults = { λ d. d.faults };

    ghost waits = { λ d. d.waited };

    /// It fails and waits exactly where the number of the call is listed. Else it gives the first of its
    /// links, and `None` where it has none.
    fn try_accept(&mut self) -> Result<Option<MemPollLink>, Stop>
        ensures links { Admits (Some (length self.old.links)) (Some (length self.new.links)) result }
        ensures cause { MayStopAt self.old.faults self.new.faults self.old.waited self.new.waited result }
        ensures fails { (result ≡ Err Stop.Failed) ↔ IsTrue (door_fails self.old) }
        ensures waits { (result ≡ Err Stop.Waits) ↔ IsTrue (door_waits self.old) }
        ensures first { IfOk result (λ o. self.old.links ≡ option_to_list o ++ self.new.links) }
        ensures none { IfOk result (λ o. IfNone o (self.old.links ≡ [])) }
        ensures counts { TryDoorCounts self.old self.new }
    {
        self.calls = self.calls.saturating_add(1);
        if is_listed(&self.fails, self.calls) {
            self.faults = self.faults.saturating_add(1);
            return Err(Stop::Failed);
        }
        if is_listed(&self.waits, self.calls) {
            self.waited = self.waited.saturating_add(1);
            return Err(Stop::Waits);
        }
        Ok(self.links.pop_front())
    }
}
