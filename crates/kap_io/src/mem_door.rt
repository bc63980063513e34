ghost use Rattle.std.specs.Prelude.{◌≡◌, ◌++◌, ◌↔◌, [], Some, IfNone, IfOk, IsErr, IsTrue, is_err, length, option_to_list};
ghost use Rattle.kap_io.specs.Causes.{HasCause};
ghost use Rattle.kap_io.specs.Doors.{Admits, DoorCounts};
ghost use Rattle.kap_io.specs.Fakes.{is_call_listed};

use crate::door::Door;
use crate::failed::Failed;
use crate::mem_link::MemLink;
use crate::mem_source::is_listed;
use std::collections::VecDeque;
use std::marker::Model;

/// A door in memory: its links come in the order of a list, and it fails at the calls that another list
/// names.
#[derive(Drop)]
pub struct MemDoor {
    links: VecDeque<MemLink>,
    fails: Vec<u64>,
    calls: u64,
    faults: u64,
}

impl Model for MemDoor {
    ghost use Rattle.kap_io.specs.Doors.{DoorState};

    ghost Value = { DoorState };

    ghost view = { λ d. record {
      links = d.links.items;
      fails = d.fails.items;
      calls = d.calls;
      faults = d.faults;
    } };
}

impl MemDoor {
    /// A door at which these links come, the first one first, and which fails at the calls with these
    /// numbers, the first call being number 1.
    pub fn new(links: Vec<MemLink>, fails: Vec<u64>) -> Self
        ensures state { result ≡ record {
          links = links.items;
          fails = fails.items;
          calls = 0;
          faults = 0;
        } }
        ensures left { ⟦<MemDoor as Door<MemLink>>⟧.left result ≡ Some (length links.items) }
        ensures faults { ⟦<MemDoor as Door<MemLink>>⟧.faults result ≡ 0 }
    {
        MemDoor {
            links: VecDeque::from(links),
            fails,
            calls: 0,
            faults: 0,
        }
    }
}

impl Door<MemLink> for MemDoor {
    ghost left = { λ d. Some (length d.links) };

    ghost faults = { λ d. d.faults };

    /// It fails exactly where the number of the call is listed. Else it gives the first of its links, and
    /// `None` where it has none.
    fn accept(&mut self) -> Result<Option<MemLink>, Failed>
        ensures links { Admits (Some (length self.old.links)) (Some (length self.new.links)) result }
        ensures cause { HasCause self.old.faults self.new.faults result }
        ensures fails { IsErr result ↔ IsTrue (is_call_listed self.old.fails self.old.calls) }
        ensures first { IfOk result (λ o. self.old.links ≡ option_to_list o ++ self.new.links) }
        ensures none { IfOk result (λ o. IfNone o (self.old.links ≡ [])) }
        ensures counts { DoorCounts self.old self.new (is_err result) }
    {
        self.calls = self.calls.saturating_add(1);
        if is_listed(&self.fails, self.calls) {
            self.faults = self.faults.saturating_add(1);
            return Err(Failed);
        }
        Ok(self.links.pop_front())
    }
}
