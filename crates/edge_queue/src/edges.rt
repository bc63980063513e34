//! What goes over an edge.

ghost use Rattle.std.specs.Prelude.{◌≡◌, ◌↔◌, ◌<◌, ◌≤◌, [], length, IfErr, IfNone, IfOk, IfSome, IsTrue, OnOk};
ghost use Rattle.edge_queue.specs.Edges.{IsEdge, IsPaired, IsSettled, edge_capacity, free, known, ring_received, ring_sent};
ghost use Rattle.edge_queue.specs.Moves.{HeadLoads, HeadLooked, Puts, TailLoads, TailLooked, Takes};

use crate::CAPACITY_LIMIT;
use crate::ends::{Head, Tail};
use kap_base::{Msg, NoMemory};
use rtrb::{PushError, RingBuffer};
use std::alloc::Global;
use std::snapshot::Snapshot;

/// The two ends of an empty edge with room for 1 to 65,536 messages. `NoMemory` comes where an allocation
/// fails.
pub fn pair(alloc: Global, capacity: u32) -> Result<(Tail, Head), NoMemory>
    requires some { 0 < capacity }
    requires limit { capacity ≤ CAPACITY_LIMIT }
    ensures edge { IfOk result (λ ends. IsEdge ends.0 ends.1) }
    ensures settled { IfOk result (λ ends. IsSettled ends.0 ends.1) }
    ensures empty { IfOk result (λ ends. (ring_sent ends.0 ≡ []) × (ring_received ends.1 ≡ [])) }
    ensures capacity { IfOk result (λ ends. edge_capacity ends.0 ≡ capacity) }
{
    let (producer, consumer) = RingBuffer::new(alloc, capacity as usize)?;
    let before = Snapshot::of(&producer);
    let after = Snapshot::of(&consumer);
    Ok((
        Tail {
            producer,
            base: before,
        },
        Head {
            consumer,
            base: after,
        },
    ))
}

impl Tail {
    /// Puts a message on the edge. It is given back only where this end knows of no free place when the call
    /// ends.
    pub fn put(&mut self, msg: Msg) -> Result<(), Msg>
        ensures put { OnOk result (Puts msg self.old self.new) }
        ensures back { IfErr result (λ back. back ≡ msg) }
        ensures kept { IfErr result (λ _. TailLooked self.old self.new) }
        ensures full { IfErr result (λ _. free self.new ≡ 0) }
    {
        match self.producer.push(msg) {
            Ok(()) => Ok(()),
            Err(PushError::Full(msg)) => Err(msg),
        }
    }

    /// Whether this end knows of a free place, once it has looked where it knew of none.
    pub fn has_room(&mut self) -> bool
        ensures looked { TailLooked self.old self.new }
        ensures room { IsTrue result ↔ (0 < free self.new) }
    {
        !self.producer.is_full()
    }

    /// Begins a load: from now on what was sent is counted anew.
    pub fn begin_load(&mut self)
        ensures { TailLoads self.old self.new }
    {
        self.base = Snapshot::of(&self.producer);
    }
}

impl Head {
    /// Takes the next message from the edge. `None` comes only where this end knows of no message when the
    /// call ends.
    pub fn take(&mut self) -> Option<Msg>
        ensures taken { IfSome result (λ msg. Takes msg self.old self.new) }
        ensures kept { IfNone result (HeadLooked self.old self.new) }
        ensures empty { IfNone result (known self.new ≡ []) }
    {
        self.consumer.pop().ok()
    }

    /// How many messages this end knows on the edge.
    pub fn waiting(&self) -> usize
        ensures { result ≡ length (known self.now) }
    {
        self.consumer.cached_slots()
    }

    /// Begins a load: from now on what was received is counted anew.
    pub fn begin_load(&mut self)
        ensures { HeadLoads self.old self.new }
    {
        self.base = Snapshot::of(&self.consumer);
    }
}

/// Shows both ends of an edge, side by side, what is on it.
pub fn settle(tail: &mut Tail, head: &mut Head)
    requires { IsPaired tail.old head.old }
    ensures tail { TailLooked tail.old tail.new }
    ensures head { HeadLooked head.old head.new }
    ensures settled { IsSettled tail.new head.new }
{
    // The free places first: each look makes one side exact, and may raise what the other end knows.
    let _ = tail.producer.slots_beside(&mut head.consumer);
    let _ = head.consumer.slots_beside(&mut tail.producer);
}
