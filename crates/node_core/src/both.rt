ghost use Rattle.node_core.specs.Both.{FitsBoth, counts_both, either, folds_both, of_both, read_both, spell_both, stamped_both, stays_both, both_spelled, step_both};

use crate::node::Node;
use kap_base::{Bytes, Effect, Item, ItemList, NoMemory};
use state_code::{CodeFault, Cursor};
use std::alloc::Global;

/// One of two: a node of one kind or of another, its spec, or its state.
#[derive(Drop)]
pub enum Both<A, B> {
    One(A),
    Other(B),
}

/// A node of one kind or of another: which, its spec says, and so its bytes don't.
impl<A: Node, B: Node> Node for Both<A, B> {
    type Spec = Both<A::Spec, B::Spec>;

    type State = Both<A::State, B::State>;

    ghost spec = { of_both A.spec B.spec };

    ghost state = { of_both A.state B.state };

    ghost ports = { either A.ports B.ports };

    ghost life = { either A.life B.life };

    ghost number = { either A.number B.number };

    ghost takes = { either A.takes B.takes };

    ghost answer = { either A.answer B.answer };

    ghost first = { of_both A.first B.first };

    ghost step = { step_both A.step B.step };

    ghost drops = { either A.drops B.drops };

    ghost fits = { FitsBoth A.fits B.fits };

    ghost spell = { spell_both A.spell B.spell };

    ghost read = { read_both A.read B.read };

    ghost folds = { folds_both A.step B.step A.first B.first A.answer B.answer A.folds B.folds };

    ghost counts = { counts_both A.step B.step A.first B.first A.drops B.drops
        A.answer B.answer A.counts B.counts };

    ghost spelled = { both_spelled A.fits B.fits A.spell B.spell A.read B.read
        A.spelled B.spelled };

    ghost stamped = { stamped_both A.life A.number B.life B.number A.answer B.answer
        A.stamped B.stamped };

    ghost stays = { stays_both A.takes B.takes A.step B.step A.stays B.stays };

    fn feed(
        &mut self,
        alloc: Global,
        port: u32,
        item: Item,
        out: &mut ItemList<Item>,
        effects: &mut ItemList<Effect>,
    ) -> Result<(), NoMemory> {
        match self {
            Both::One(node) => node.feed(alloc, port, item, out, effects),
            Both::Other(node) => node.feed(alloc, port, item, out, effects),
        }
    }

    fn save(&self, to: &mut Bytes) -> Result<(), NoMemory> {
        match self {
            Both::One(node) => node.save(to),
            Both::Other(node) => node.save(to),
        }
    }

    fn load(&mut self, alloc: Global, from: &mut Cursor) -> Result<(), CodeFault> {
        match self {
            Both::One(node) => node.load(alloc, from),
            Both::Other(node) => node.load(alloc, from),
        }
    }

    fn dropped(&self) -> u64 {
        match self {
            Both::One(node) => node.dropped(),
            Both::Other(node) => node.dropped(),
        }
    }
}
