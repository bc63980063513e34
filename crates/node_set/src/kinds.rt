//! The node of any kind.

ghost use Rattle.node_set.specs.Kinds.{any, spec_of, state_of};

use alert_node::{Alert, Watch};
use basic_nodes::{GroupKind, PointKind};
use eval_node::{Counts as Evaluations, Eval};
use join_node::{Join, JoinCell, Union};
use kap_base::{Bytes, Effect, Item, ItemList, NoMemory};
use node_core::{Alone, Both, Grouped, Node, PlainNode, RuleNode, Running, Seat, Table};
use select_nodes::Selection;
use state_code::{CodeFault, Cursor};
use state_nodes::{
    ChangeDetect, Counts, CumulativeSum, Difference, Elapsed, LastValues, StateCount,
};
use std::alloc::Global;
use window_node::{CountedGroup, CountedWindow, EdgeCell, EdgeWindow, SlidingCell, SlidingWindow};

/// Where a rule for groups sits.
type RuleSeat<R> = Seat<Grouped<R>>;

/// Where a rule that keeps nothing sits.
type PlainSeat<P> = Seat<Alone<P>>;

/// What is kept that is kept of each group.
type Cells<C> = Running<Table<C>>;

/// One of the kinds that keep a small state of each group, by what these are.
type States<A, B, C, D, E> = Both<A, Both<B, Both<C, Both<D, E>>>>;

/// A window, by what these are.
type Windows<A, B, C> = Both<A, Both<B, C>>;

/// One of seven families of kinds, by what these are.
type Families<A, B, C, D, E, F, G> = Both<A, Both<Both<B, C>, Both<Both<D, E>, Both<F, G>>>>;

/// A node of any kind that a script can make.
#[derive(Drop)]
pub enum AnyNode {
    /// Counts of points in a row with a true condition.
    StateCount(RuleNode<StateCount>),
    /// Points at which a value changed.
    ChangeDetect(RuleNode<ChangeDetect>),
    /// Differences of a field.
    Difference(RuleNode<Difference>),
    /// Sums of a field so far.
    CumulativeSum(RuleNode<CumulativeSum>),
    /// Times between points.
    Elapsed(RuleNode<Elapsed>),
    /// A window with edges.
    EdgeWindow(RuleNode<EdgeWindow>),
    /// A window that slides.
    SlidingWindow(RuleNode<SlidingWindow>),
    /// A window by the number of points.
    CountedWindow(RuleNode<CountedWindow>),
    /// An alert.
    Alert(RuleNode<Alert>),
    /// A basic kind that keeps nothing.
    Point(PlainNode<PointKind>),
    /// A basic kind that keeps something of each group.
    Group(RuleNode<GroupKind>),
    /// An eval node.
    Eval(RuleNode<Eval>),
    /// A union.
    Union(PlainNode<Union>),
    /// A join.
    Join(RuleNode<Join>),
    /// A select.
    Select(PlainNode<Selection>),
}

/// Which kind, its spec says, and so its bytes don't.
impl Node for AnyNode {
    type Spec = Families<
        States<
            RuleSeat<StateCount>,
            RuleSeat<ChangeDetect>,
            RuleSeat<Difference>,
            RuleSeat<CumulativeSum>,
            RuleSeat<Elapsed>,
        >,
        Windows<RuleSeat<EdgeWindow>, RuleSeat<SlidingWindow>, RuleSeat<CountedWindow>>,
        RuleSeat<Alert>,
        Both<PlainSeat<PointKind>, RuleSeat<GroupKind>>,
        RuleSeat<Eval>,
        Both<PlainSeat<Union>, RuleSeat<Join>>,
        PlainSeat<Selection>,
    >;

    type State = Families<
        States<
            Cells<Counts>,
            Cells<LastValues>,
            Cells<Option<i64>>,
            Cells<i64>,
            Cells<Option<i64>>,
        >,
        Windows<Cells<EdgeCell>, Cells<SlidingCell>, Cells<CountedGroup>>,
        Cells<Watch>,
        Both<Running<()>, Cells<u64>>,
        Cells<Evaluations>,
        Both<Running<()>, Cells<JoinCell>>,
        Running<()>,
    >;

    ghost spec = { spec_of };

    ghost state = { state_of };

    ghost ports = { any.ports };

    ghost life = { any.life };

    ghost number = { any.number };

    ghost takes = { any.takes };

    ghost answer = { any.answer };

    ghost first = { any.first };

    ghost step = { any.step };

    ghost drops = { any.drops };

    ghost fits = { any.Fits };

    ghost spell = { any.spell };

    ghost read = { any.read };

    ghost folds = { any.folds };

    ghost counts = { any.counts };

    ghost stamped = { any.stamped };

    ghost stays = { any.stays };

    ghost spelled = { any.spelled };

    fn feed(
        &mut self,
        alloc: Global,
        port: u32,
        item: Item,
        out: &mut ItemList<Item>,
        effects: &mut ItemList<Effect>,
    ) -> Result<(), NoMemory> {
        match self {
            AnyNode::StateCount(node) => node.feed(alloc, port, item, out, effects),
            AnyNode::ChangeDetect(node) => node.feed(alloc, port, item, out, effects),
            AnyNode::Difference(node) => node.feed(alloc, port, item, out, effects),
            AnyNode::CumulativeSum(node) => node.feed(alloc, port, item, out, effects),
            AnyNode::Elapsed(node) => node.feed(alloc, port, item, out, effects),
            AnyNode::EdgeWindow(node) => node.feed(alloc, port, item, out, effects),
            AnyNode::SlidingWindow(node) => node.feed(alloc, port, item, out, effects),
            AnyNode::CountedWindow(node) => node.feed(alloc, port, item, out, effects),
            AnyNode::Alert(node) => node.feed(alloc, port, item, out, effects),
            AnyNode::Point(node) => node.feed(alloc, port, item, out, effects),
            AnyNode::Group(node) => node.feed(alloc, port, item, out, effects),
            AnyNode::Eval(node) => node.feed(alloc, port, item, out, effects),
            AnyNode::Union(node) => node.feed(alloc, port, item, out, effects),
            AnyNode::Join(node) => node.feed(alloc, port, item, out, effects),
            AnyNode::Select(node) => node.feed(alloc, port, item, out, effects),
        }
    }

    fn save(&self, to: &mut Bytes) -> Result<(), NoMemory> {
        match self {
            AnyNode::StateCount(node) => node.save(to),
            AnyNode::ChangeDetect(node) => node.save(to),
            AnyNode::Difference(node) => node.save(to),
            AnyNode::CumulativeSum(node) => node.save(to),
            AnyNode::Elapsed(node) => node.save(to),
            AnyNode::EdgeWindow(node) => node.save(to),
            AnyNode::SlidingWindow(node) => node.save(to),
            AnyNode::CountedWindow(node) => node.save(to),
            AnyNode::Alert(node) => node.save(to),
            AnyNode::Point(node) => node.save(to),
            AnyNode::Group(node) => node.save(to),
            AnyNode::Eval(node) => node.save(to),
            AnyNode::Union(node) => node.save(to),
            AnyNode::Join(node) => node.save(to),
            AnyNode::Select(node) => node.save(to),
        }
    }

    fn load(&mut self, alloc: Global, from: &mut Cursor) -> Result<(), CodeFault> {
        match self {
            AnyNode::StateCount(node) => node.load(alloc, from),
            AnyNode::ChangeDetect(node) => node.load(alloc, from),
            AnyNode::Difference(node) => node.load(alloc, from),
            AnyNode::CumulativeSum(node) => node.load(alloc, from),
            AnyNode::Elapsed(node) => node.load(alloc, from),
            AnyNode::EdgeWindow(node) => node.load(alloc, from),
            AnyNode::SlidingWindow(node) => node.load(alloc, from),
            AnyNode::CountedWindow(node) => node.load(alloc, from),
            AnyNode::Alert(node) => node.load(alloc, from),
            AnyNode::Point(node) => node.load(alloc, from),
            AnyNode::Group(node) => node.load(alloc, from),
            AnyNode::Eval(node) => node.load(alloc, from),
            AnyNode::Union(node) => node.load(alloc, from),
            AnyNode::Join(node) => node.load(alloc, from),
            AnyNode::Select(node) => node.load(alloc, from),
        }
    }

    fn dropped(&self) -> u64 {
        match self {
            AnyNode::StateCount(node) => node.dropped(),
            AnyNode::ChangeDetect(node) => node.dropped(),
            AnyNode::Difference(node) => node.dropped(),
            AnyNode::CumulativeSum(node) => node.dropped(),
            AnyNode::Elapsed(node) => node.dropped(),
            AnyNode::EdgeWindow(node) => node.dropped(),
            AnyNode::SlidingWindow(node) => node.dropped(),
            AnyNode::CountedWindow(node) => node.dropped(),
            AnyNode::Alert(node) => node.dropped(),
            AnyNode::Point(node) => node.dropped(),
            AnyNode::Group(node) => node.dropped(),
            AnyNode::Eval(node) => node.dropped(),
            AnyNode::Union(node) => node.dropped(),
            AnyNode::Join(node) => node.dropped(),
            AnyNode::Select(node) => node.dropped(),
        }
    }
}
