ghost use Rattle.std.specs.Prelude.{◌≡◌, ◌≤◌, ◌↔◌, [], IsErr, IsOk, IsTrue};
ghost use Rattle.kap_io.specs.Causes.{HasCause};
ghost use Rattle.kap_io.specs.Fakes.{is_listed};
ghost use Rattle.conn_loop.specs.Fakes.{WaitCounts, fails_wait};

use crate::ready::Ready;
use kap_base::ItemList;
use kap_io::{Failed, TryLink};
use std::alloc::Global;
use std::collections::VecDeque;
use std::marker::Model;

/// Tells numbers in the order of a list of lists, one a wait, and fails at the waits that another list names,
/// and behind the last list. It keeps nothing of links: they are watched and released without a trace.
#[derive(Drop)]
pub struct MemReady {
    lists: VecDeque<ItemList<u32>>,
    numbers: ItemList<u32>,
    fails: Vec<u64>,
    calls: u64,
    faults: u64,
}

impl Model for MemReady {
    ghost use Rattle.conn_loop.specs.Fakes.{ReadyState};

    ghost Value = { ReadyState };

    ghost view = { λ r. record {
      lists = r.lists.items;
      numbers = r.numbers;
      fails = r.fails.items;
      calls = r.calls;
      faults = r.faults;
    } };
}

/// Whether the call with this number is one of those in a list.
pub(crate) fn is_listed(listed: &[u64], call: u64) -> bool
    ensures { result ≡ is_listed listed.now call }
{
    listed.contains(&call)
}

impl MemReady {
    /// Tells these numbers, the first list first, and fails at the waits with these numbers, the first one
    /// being number 1.
    pub fn new(alloc: Global, lists: Vec<ItemList<u32>>, fails: Vec<u64>) -> Self
        ensures { result ≡ record {
          lists = lists.items;
          numbers = [];
          fails = fails.items;
          calls = 0;
          faults = 0;
        } }
    {
        MemReady {
            lists: VecDeque::from(lists),
            numbers: ItemList::new(alloc),
            fails,
            calls: 0,
            faults: 0,
        }
    }
}

impl<L: TryLink + Drop> Ready<L> for MemReady {
    ghost faults = { λ r. r.faults };

    /// It never fails, and no number is watched behind it as none was before: its lists tell numbers whether or
    /// not a link has them. Nothing of the link has changed.
    fn watch(&mut self, _link: &mut L, _number: u32) -> Result<(), Failed>
        ensures left { L.left _link.new ≡ L.left _link.old }
        ensures written { L.written _link.new ≡ L.written _link.old }
        ensures reads { L.read_faults _link.new ≡ L.read_faults _link.old }
        ensures writes { L.write_faults _link.new ≡ L.write_faults _link.old }
        ensures waits { L.waits _link.new ≡ L.waits _link.old }
        ensures cause { HasCause self.old.faults self.new.faults result }
        ensures ok { IsOk result }
        ensures same { self.new ≡ self.old }
        ensures link { _link.new ≡ _link.old }
    {
        Ok(())
    }

    /// The link is let go, and nothing else has changed: its number is told as before.
    fn release(&mut self, _number: u32, _link: L)
        ensures later { self.old.faults ≤ self.new.faults }
        ensures same { self.new ≡ self.old }
    {}

    /// It fails exactly where the number of the call is listed, and where no list is left. Else it takes the
    /// next one.
    fn wait(&mut self, _at_once: bool) -> Result<(), Failed>
        ensures cause { HasCause self.old.faults self.new.faults result }
        ensures fails { IsErr result ↔ IsTrue (fails_wait self.old) }
        ensures counts { WaitCounts self.old self.new }
    {
        self.calls = self.calls.saturating_add(1);
        if is_listed(&self.fails, self.calls) {
            self.faults = self.faults.saturating_add(1);
            return Err(Failed);
        }
        match self.lists.pop_front() {
            None => {
                self.faults = self.faults.saturating_add(1);
                Err(Failed)
            }
            Some(numbers) => {
                self.numbers = numbers;
                Ok(())
            }
        }
    }

    fn numbers(&self) -> &[u32]
        ensures { result.now ≡ self.now.numbers }
    {
        self.numbers.as_slice()
    }
}
