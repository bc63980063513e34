//! One epoch through a net.

ghost use Rattle.std.specs.Prelude.{◌≡◌, ℕ, ◌+◌, ◌++◌, ◌≤◌, [], false, true, IfOk, IsFalse, IsTrue, List, OnErr, OnOk, length, map};
ghost use Rattle.std.specs.List.{AllByRecursion as Each, AllZip};
ghost use Rattle.kap_base.specs.Points.{PointValue};
ghost use Rattle.task_run.specs.Courses.{Course, end_of, from_first, grown, later_effects};
ghost use Rattle.task_run.specs.Graphs.{Placed};
ghost use Rattle.task_run.specs.Lives.{effects_of};
ghost use Rattle.flow_core.specs.Gathering.{LivesRise};
ghost use Rattle.flow_core.specs.Messages.{load_messages};
ghost use Rattle.flow_core.specs.Nets.{HasStreamsCarried, IsLifeIn, IsResting, numbers_of, plans_from, plans_in, specs_in};
ghost use Rattle.flow_core.specs.Rooms.{rooms_in};
ghost use Rattle.net_epochs.specs.Epochs.{IsOnCourse, StandsAt, nodes_in};
ghost use Rattle.net_run.specs.Epochs.{Stands};

use crate::moving::{Way, move_to_rest};
use crate::numbering::NumberingNode;
use flow_core::Net;
use kap_base::{NoMemory, Point, Shared, Stamp};
use kap_io::Gate;
use node_core::Effects;
use std::alloc::Global;
use std::thread::Threads;

/// The points, where they are held. Otherwise there are none from here on, and whoever else has them has them
/// alone.
fn held_points(alloc: Global, points: Vec<Shared<Point>>, hold: bool) -> Vec<Shared<Point>>
    ensures held { IsTrue hold → result.items ≡ points.items }
    ensures none { IsFalse hold → result.items ≡ [] }
{
    if hold {
        points
    } else {
        drop(points);
        Vec::new(alloc)
    }
}

/// Loads an epoch of points, with stamps that end at `upto`, into a net whose lives may have begun behind
/// different points, has it come to rest in this way, and answers the effects with these stamps: by stamp,
/// then by life, then by node, then in the order in which the node gives them. At rest each edge has carried
/// its stream, and each life is where its points have brought it. After NoMemory the net is spent.
pub fn run_epoch<N: NumberingNode + Send, R: Threads + Sync, G: Gate + Sync>(
    alloc: Global,
    net: &mut Net<N>,
    points: &[Shared<Point>],
    upto: Stamp,
    way: &Way<'_, R, G>,
) -> Result<Effects, NoMemory>
    requires unspent { net.old.spent ≡ false }
    requires rest { Each IsResting net.old.lives }
    requires none { net.old.gathered ≡ [] }
    requires upto { net.old.last.0 + length points.now ≤ upto.0 }
    ensures rest { OnOk result (Each IsResting net.new.lives) }
    ensures streams { OnOk result (Each (HasStreamsCarried N.Node) net.new.lives) }
    ensures sound { OnOk result (Each (IsLifeIn N.Node) net.new.lives) }
    ensures loaded { OnOk result (plans_in N.Node net.new.lives
        ≡ plans_from N.Node (load_messages points.now upto []) net.old.lives) }
    ensures specs { OnOk result (specs_in N.Node net.new.lives ≡ specs_in N.Node net.old.lives) }
    ensures none { OnOk result (net.new.gathered ≡ []) }
    ensures numbers { OnOk result (numbers_of net.new.lives ≡ numbers_of net.old.lives) }
    ensures last { OnOk result (net.new.last ≡ upto) }
    ensures rooms { OnOk result (rooms_in net.new.lives ≡ rooms_in net.old.lives) }
    ensures unspent { OnOk result (net.new.spent ≡ false) }
    ensures spent { OnErr result (net.new.spent ≡ true) }
    ensures lives { OnOk result ((n : ℕ) (courses : List (Course N.Spec))
        → upto.0 ≡ n + length points.now → Each (λ c. end_of c ≡ n) courses
        → AllZip (IsOnCourse N.Node) courses net.old.lives
        → AllZip (IsOnCourse N.Node) (map (grown points.now) courses) net.new.lives) }
    ensures stands { OnOk result ((n : ℕ) (courses : List (Course N.Spec))
        → upto.0 ≡ n + length points.now → StandsAt N.Node n courses net.old
        → StandsAt N.Node (n + length points.now) (map (grown points.now) courses) net.new) }
    ensures effects { IfOk result (λ effects. (n low : ℕ) (courses : List (Course N.Spec))
        → upto.0 ≡ n + length points.now → Each (λ c. end_of c ≡ n) courses
        → AllZip (IsOnCourse N.Node) courses net.old.lives
        → LivesRise N.life N.number low (nodes_in courses)
        → effects ≡ later_effects N.answer n (length points.now)
        (map (grown points.now) courses)) }
{
    net.load(alloc, points, upto, &[])?;
    move_to_rest(alloc, net, points.len(), way)?;
    Ok(net.collect(alloc))
}

/// Loads an epoch of points into lives that all began at the first one, with stamps that end at `upto`, and
/// answers just the effects with these stamps. The points stay the caller's. After NoMemory the net can't go
/// on.
pub(crate) fn run_shared<N: NumberingNode + Send, R: Threads + Sync, G: Gate + Sync>(
    alloc: Global,
    net: &mut Net<N>,
    points: &[Shared<Point>],
    upto: Stamp,
    way: &Way<'_, R, G>,
) -> Result<Effects, NoMemory>
    requires unspent { net.old.spent ≡ false }
    requires rest { Each IsResting net.old.lives }
    requires none { net.old.gathered ≡ [] }
    requires upto { upto.0 ≡ net.old.last.0 + length points.now }
    ensures last { OnOk result (net.new.last ≡ upto) }
    ensures rooms { OnOk result (rooms_in net.new.lives ≡ rooms_in net.old.lives) }
    ensures stands { OnOk result ((nodes : List (List (Placed N.Spec)))
        (before : List PointValue) → Stands N.Node nodes before net.old
        → Stands N.Node nodes (before ++ points.now) net.new) }
    ensures effects { IfOk result (λ effects. (nodes : List (List (Placed N.Spec)))
        (before : List PointValue) → Stands N.Node nodes before net.old
        → effects ≡ later_effects N.answer (length before) (length points.now)
        (from_first (before ++ points.now) nodes)) }
{
    let effects = run_epoch(alloc, net, points, upto, way)?;
    Ok(effects)
}

/// Loads an epoch of points into lives that all began at the first one, with stamps that end at `upto`, and
/// answers its effects at rest, and the points, where they are held. Else they are let go before the net
/// moves, so that whoever has them has them alone. After NoMemory the net can't go on.
pub(crate) fn run_held<N: NumberingNode + Send, R: Threads + Sync, G: Gate + Sync>(
    alloc: Global,
    net: &mut Net<N>,
    points: Vec<Shared<Point>>,
    hold: bool,
    upto: Stamp,
    way: &Way<'_, R, G>,
) -> Result<(Effects, Vec<Shared<Point>>), NoMemory>
    requires unspent { net.old.spent ≡ false }
    requires rest { Each IsResting net.old.lives }
    requires upto { upto.0 ≡ net.old.last.0 + length points.items }
    ensures last { OnOk result (net.new.last ≡ upto) }
    ensures rooms { OnOk result (rooms_in net.new.lives ≡ rooms_in net.old.lives) }
    ensures stands { OnOk result ((nodes : List (List (Placed N.Spec)))
        (before : List PointValue) → Stands N.Node nodes before net.old
        → Stands N.Node nodes (before ++ points.items) net.new) }
    ensures effects { IfOk result (λ ran. (nodes : List (List (Placed N.Spec)))
        (before : List PointValue) → Stands N.Node nodes before net.old
        → effects_of N.answer nodes (before ++ points.items)
        ≡ effects_of N.answer nodes before ++ ran.0) }
    ensures held { IfOk result (λ ran. IsTrue hold → ran.1.items ≡ points.items) }
    ensures none { IfOk result (λ ran. IsFalse hold → ran.1.items ≡ []) }
{
    let count = points.len();
    net.load(alloc, &points, upto, &[])?;
    let held = held_points(alloc, points, hold);
    move_to_rest(alloc, net, count, way)?;
    Ok((net.collect(alloc), held))
}
