ghost use Rattle.std.specs.Prelude.{◌≡◌, ◌+◌, ◌++◌, [], IfOk, OnOk, length};
ghost use Rattle.node_core.specs.FewItems.{few_items};
ghost use Rattle.node_core.specs.Numbering.{items_at, effects_from, stamped, running_step, running_first};
ghost use Rattle.node_core.specs.NumberLaws.{folds, counts, is_stamped, running_stays};
ghost use Rattle.node_core.specs.RunningSpelling.{FitsRunning, spell_running, read_running, running_spelled};

use crate::few::Few;
use crate::kind::Kind;
use crate::node::Node;
use crate::running::{Running, Tally};
use kap_base::{Body, Bytes, Effect, Item, ItemList, NoMemory, Stamp, What};
use state_code::{CodeFault, Cursor, Spelled};
use std::alloc::Global;

/// A kind, the life in which it runs, and the node's number.
#[derive(Debug, Drop)]
pub struct Seat<K> {
    /// The number of the life of its task, from 1.
    pub life: u32,
    /// The number of the node in its task.
    pub node: u32,
    /// What it does.
    pub kind: K,
}

/// The node of a kind: it stamps what the kind says, counts what is dropped, and numbers the effects over all
/// groups.
#[derive(Drop)]
pub struct Numbered<K: Kind> {
    /// What it does, in which life, and its number.
    pub seat: Seat<K>,
    /// What it keeps.
    pub running: Running<K::State>,
}

impl<K: Kind + Drop> Numbered<K> {
    /// The node in its first state.
    pub fn new(alloc: Global, seat: Seat<K>) -> Numbered<K>
        ensures seat { result.seat ≡ seat }
        ensures first { result.running ≡ running_first (K.begin seat.kind) }
    {
        let inner = seat.kind.first(alloc);
        Numbered {
            seat,
            running: Running {
                tally: Tally { stamp: 0, count: 0 },
                dropped: 0,
                inner,
            },
        }
    }
}

fn give_first_item(
    stamp: Stamp,
    first: Option<Body>,
    out: &mut ItemList<Item>,
) -> Result<(), NoMemory>
    ensures { OnOk result (out.new ≡ out.old ++ items_at stamp (few_items first [])) }
{
    match first {
        Some(body) => out.push(Item { stamp, body }),
        None => Ok(()),
    }
}

fn give_more_items(stamp: Stamp, more: Vec<Body>, out: &mut ItemList<Item>) -> Result<(), NoMemory>
    ensures { OnOk result (out.new ≡ out.old ++ items_at stamp more.items) }
{
    'giving: for body in more {
        out.push(Item { stamp, body })?;
    }
    Ok(())
}

/// Gives bodies out with a stamp.
#[tactic(auto, using(crate::proofs::FewLaws::items_at_few))]
#[inline(always)]
fn give_items(stamp: Stamp, bodies: Few<Body>, out: &mut ItemList<Item>) -> Result<(), NoMemory>
    ensures { OnOk result (out.new ≡ out.old ++ items_at stamp bodies) }
{
    let (first, more) = bodies.into_parts();
    give_first_item(stamp, first, out)?;
    if more.is_empty() {
        return Ok(());
    }
    give_more_items(stamp, more, out)
}

/// Gives an effect out, if there is one, and answers the next number.
#[inline(always)]
fn give_first_effect(
    life: u32,
    node: u32,
    stamp: Stamp,
    seq: u32,
    first: Option<What>,
    effects: &mut ItemList<Effect>,
) -> Result<u32, NoMemory>
    ensures effects { OnOk result
        (effects.new ≡ effects.old ++ effects_from life node stamp seq (few_items first [])) }
    ensures next { IfOk result (λ next. next ≡ seq + length (few_items first [])) }
{
    let Some(what) = first else {
        return Ok(seq);
    };
    let Some(next) = seq.checked_add(1) else {
        return Err(NoMemory);
    };
    effects.push(Effect {
        stamp,
        life,
        node,
        seq,
        what,
    })?;
    Ok(next)
}

fn give_more_effects(
    life: u32,
    node: u32,
    stamp: Stamp,
    seq: u32,
    more: Vec<What>,
    effects: &mut ItemList<Effect>,
) -> Result<u32, NoMemory>
    ensures effects { OnOk result
        (effects.new ≡ effects.old ++ effects_from life node stamp seq more.items) }
    ensures next { IfOk result (λ next. next ≡ seq + length more.items) }
{
    let mut next = seq;
    'giving: for what in more {
        let seq = next;
        effects.push(Effect {
            stamp,
            life,
            node,
            seq,
            what,
        })?;
        let Some(more) = next.checked_add(1) else {
            return Err(NoMemory);
        };
        next = more;
    }
    Ok(next)
}

/// Gives effects out with a stamp, numbered from `seq` on, and answers the next number.
#[tactic(auto, using(crate::proofs::FewLaws::effects_from_few, crate::proofs::FewLaws::length_few))]
#[inline(always)]
fn give_effects(
    life: u32,
    node: u32,
    stamp: Stamp,
    seq: u32,
    deeds: Few<What>,
    effects: &mut ItemList<Effect>,
) -> Result<u32, NoMemory>
    ensures effects { OnOk result
        (effects.new ≡ effects.old ++ effects_from life node stamp seq deeds) }
    ensures next { IfOk result (λ next. next ≡ seq + length deeds) }
{
    let (first, more) = deeds.into_parts();
    let next = give_first_effect(life, node, stamp, seq, first, effects)?;
    if more.is_empty() {
        return Ok(next);
    }
    give_more_effects(life, node, stamp, next, more, effects)
}

impl<K: Kind + Drop> Node for Numbered<K> {
    type Spec = Seat<K>;

    type State = Running<K::State>;

    ghost spec = { λ n. n.seat };

    ghost state = { λ n. n.running };

    ghost ports = { λ s. K.ports s.kind };

    ghost life = { λ s. s.life };

    ghost number = { λ s. s.node };

    ghost takes = { λ s. K.takes s.kind };

    ghost answer = { λ s. stamped s.life s.node (K.saying s.kind) };

    ghost first = { λ s. running_first (K.begin s.kind) };

    ghost step = { λ s. running_step s.life s.node (K.step s.kind) };

    ghost drops = { λ r. r.dropped };

    ghost fits = { λ s. FitsRunning K.State.fits };

    ghost spell = { λ s. spell_running K.State.spell };

    ghost read = { λ s. read_running K.State.read };

    ghost spelled = { λ s. running_spelled K.State.spelled };

    ghost folds = { λ s. folds s.life s.node (K.saying s.kind) (K.step s.kind) (K.begin s.kind)
        (K.kept s.kind) (K.begins s.kind) (K.goes_on s.kind) (K.says s.kind) };

    ghost counts = { λ s. counts s.life s.node (K.saying s.kind) (K.step s.kind) (K.begin s.kind)
        (K.kept s.kind) (K.begins s.kind) (K.goes_on s.kind) (K.says s.kind) };

    ghost stamped = { λ s. is_stamped s.life s.node (K.saying s.kind) };

    ghost stays = { λ s r x h. running_stays s.life s.node (K.step s.kind) r x
        (K.stays s.kind r.inner (x.0, x.1.body) h) };

    fn feed(
        &mut self,
        alloc: Global,
        port: u32,
        item: Item,
        out: &mut ItemList<Item>,
        effects: &mut ItemList<Effect>,
    ) -> Result<(), NoMemory> {
        let stamp = item.stamp;
        let said = self
            .seat
            .kind
            .feed(alloc, &mut self.running.inner, port, item.body)?;
        let Some(dropped) = self.running.dropped.checked_add(said.drops) else {
            return Err(NoMemory);
        };
        let seq = self.running.tally.number_at(stamp.0);
        give_items(stamp, said.bodies, out)?;
        let next = give_effects(
            self.seat.life,
            self.seat.node,
            stamp,
            seq,
            said.deeds,
            effects,
        )?;
        self.running.tally = self.running.tally.counted_to(stamp.0, next);
        self.running.dropped = dropped;
        Ok(())
    }

    fn save(&self, to: &mut Bytes) -> Result<(), NoMemory> {
        self.running.put_spelling(to)
    }

    fn load(&mut self, alloc: Global, from: &mut Cursor) -> Result<(), CodeFault> {
        match Running::take_spelling(alloc, from) {
            Ok(running) => {
                self.running = running;
                Ok(())
            }
            Err(CodeFault::At(offset)) => Err(CodeFault::At(offset)),
            Err(CodeFault::NoMemory) => Err(CodeFault::NoMemory),
        }
    }

    fn dropped(&self) -> u64 {
        self.running.dropped
    }
}
