//! Messages that wait.

ghost use Rattle.std.specs.Prelude.{◌≡◌, [], ◌∷◌, ◌++◌, drop, slice_get, OnErr, OnOk};
ghost use Rattle.std.specs.Option.{option_copied};

use kap_base::{Msg, NoMemory};
use std::alloc::Global;
use std::collections::VecDeque;
use std::marker::Model;

/// Messages that wait, which contracts see as a list in the order in which they came.
#[derive(Drop)]
pub struct Queue {
    msgs: VecDeque<Msg>,
}

impl Model for Queue {
    ghost use Rattle.std.specs.Coded.{codes};
    ghost use Rattle.std.specs.Prelude.{List};
    ghost use Rattle.kap_base.specs.Maps.{key_map_code};
    ghost use Rattle.kap_base.specs.declared.items.Msg.{Msg};

    ghost Value = { List Msg };

    ghost coded = { Prim.hlevel (codes, key_map_code) };

    ghost view = { λ q. q.msgs.items };
}

impl Queue {
    /// No messages.
    pub fn new(alloc: Global) -> Queue
        ensures { result ≡ [] }
    {
        Queue {
            msgs: VecDeque::new(alloc),
        }
    }

    /// Adds a message at the end. An `Err` changes nothing.
    #[inline(always)]
    pub fn push(&mut self, msg: Msg) -> Result<(), NoMemory>
        ensures ok { OnOk result (self.new ≡ self.old ++ msg ∷ []) }
        ensures err { OnErr result (self.new ≡ self.old) }
    {
        self.msgs.push_back(msg)?;
        Ok(())
    }

    /// Takes the first message, if there is one. The others aren't moved.
    pub fn pop(&mut self) -> Option<Msg>
        ensures first { result ≡ slice_get self.old 0 }
        ensures rest { self.new ≡ drop 1 self.old }
    {
        self.msgs.pop_front()
    }

    /// The first message, if there is one.
    pub fn first(&self) -> Option<&Msg>
        ensures { option_copied result ≡ slice_get self.now 0 }
    {
        self.msgs.front()
    }
}
