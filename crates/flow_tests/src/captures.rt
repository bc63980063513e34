//! Nets whose states are captured, and that go on in another net.

ghost use Rattle.std.specs.Prelude.{◌≡◌, ◌+◌, ◌<◌, ◌≤◌, [], ◌∷◌, false, IfOk, IfSome, IsPermutation, List, OnOk, length};
ghost use Rattle.std.specs.List.{AllByRecursion as Each, AllZip};
ghost use Rattle.kap_base.specs.declared.items.Effect.{Effect};
ghost use Rattle.task_run.specs.Plans.{AreFirstNodes, graph_of};
ghost use Rattle.flow_core.specs.Done.{HasGathered, effects_in};
ghost use Rattle.flow_core.specs.Gathering.{LivesRise, NumbersEffects};
ghost use Rattle.flow_core.specs.Making.{HasFewParents};
ghost use Rattle.flow_core.specs.Messages.{AreMarksOf, load_messages};
ghost use Rattle.flow_core.specs.Nets.{IsResting};
ghost use Rattle.flow_core.specs.Sorting.{AreRising};
ghost use Rattle.barrier_snapshot.specs.Loading.{IsSameLife};
ghost use Rattle.barrier_snapshot.specs.Resuming.{DidTheRestOf, DidTheSame, effects_behind};
ghost use Rattle.barrier_snapshot.specs.Steady.{HasSteadyStream};
ghost use Rattle.flow_tests.specs.Captures.{HasRunLoad, IsLoadedNew, RanAlike, RanBoth, Stopped, WentOn};

use crate::points::{check_effects, three_points};
use crate::taps::{TapNode, plan_of_taps};
use barrier_snapshot::{
    capture, has_passed, has_passed_inside, lives_are_planned, lives_stand, nets_collect_alike,
    nets_go_on, restore, streams_are_steady,
};
use flow_core::{Net, effects_are_gathered, loads_have_messages};
use flow_life::Step;
use kap_base::{Bytes, NoMemory, Point, Shared, Stamp};
use net_epochs::epochs_go_on;
use node_core::{Effects, Node};
use std::alloc::Global;
use std::process::Abort;
use std::test::Fail;
use task_run::LifePlan;

/// What the tap that isn't quiet does with the three points.
const ALL: &str = "1 3.1.0 10\n1 3.1.1 10\n2 3.1.0 20\n2 3.1.1 20\n\
     3 3.1.0 30\n3 3.1.1 30\n";

/// Up to the second one.
const BEFORE: &str = "1 3.1.0 10\n1 3.1.1 10\n2 3.1.0 20\n2 3.1.1 20\n";

/// And behind it.
const BEHIND: &str = "3 3.1.0 30\n3 3.1.1 30\n";

/// The steps by which the second cell passes the inner barrier.
const TO_BARRIER: [Step; 12] = [
    Step::Put { cell: 0, out: 0 },
    Step::Put { cell: 0, out: 1 },
    Step::Take { cell: 1, input: 0 },
    Step::Take { cell: 1, input: 1 },
    Step::Put { cell: 0, out: 0 },
    Step::Put { cell: 0, out: 1 },
    Step::Take { cell: 1, input: 0 },
    Step::Take { cell: 1, input: 1 },
    Step::Put { cell: 0, out: 0 },
    Step::Put { cell: 0, out: 1 },
    Step::Take { cell: 1, input: 0 },
    Step::Take { cell: 1, input: 1 },
];

/// A net of a plan that was loaded with points.
fn load_new<N: Node>(
    alloc: Global,
    plan: LifePlan<N>,
    points: &[Shared<Point>],
    last: Stamp,
    marks: &[Stamp],
) -> Result<Net<N>, NoMemory>
    requires few { HasFewParents plan }
    requires last { last.0 ≡ length points.now }
    ensures { IfOk result (IsLoadedNew N.Node plan points.now last marks.now) }
{
    effects_are_gathered::<N>();
    let plans = Vec::from_array(alloc, [plan])?;
    let mut net = Net::make(alloc, plans, 1)?;
    net.load(alloc, points, last, marks)?;
    Ok(net)
}

/// A net of a plan that is loaded with points and a barrier behind some of them, and makes these steps; and
/// what is captured of it at the barrier. `None` comes where the steps don't end there.
fn stop_inside<N: Node>(
    alloc: Global,
    plan: LifePlan<N>,
    points: &[Shared<Point>],
    mark: Stamp,
    last: Stamp,
    steps: &[Step],
) -> Result<Option<(Net<N>, Bytes)>, NoMemory>
    requires few { HasFewParents plan }
    requires steady { HasSteadyStream N.Node plan }
    requires last { last.0 ≡ length points.now }
    requires marks { AreMarksOf points.now last (mark ∷ []) }
    ensures { IfOk result (λ both. IfSome both (λ stopped.
        Stopped N.Node plan points.now last (mark ∷ []) mark stopped.0 stopped.1)) }
{
    let mut net = load_new(alloc, plan, points, last, &[mark])?;
    net.play(alloc, steps)?;
    if !has_passed_inside(&net, mark) {
        return Ok(None);
    }
    effects_are_gathered::<N>();
    loads_have_messages();
    streams_are_steady::<N>();
    let bytes = capture(alloc, &net, mark)?;
    Ok(Some((net, bytes)))
}

/// A net of a plan that runs a load of points to its rest, and what is captured of it there.
fn stop_at_rest<N: Node>(
    alloc: Global,
    plan: LifePlan<N>,
    points: &[Shared<Point>],
    last: Stamp,
) -> Result<Option<(Net<N>, Bytes)>, NoMemory>
    requires few { HasFewParents plan }
    requires last { last.0 ≡ length points.now }
    ensures stopped { IfOk result (λ both. IfSome both (λ stopped.
        Stopped N.Node plan points.now last [] last stopped.0 stopped.1)) }
    ensures rest { IfOk result (λ both. IfSome both (λ stopped. Each IsResting stopped.0.lives)) }
    ensures last { IfOk result (λ both. IfSome both (λ stopped. stopped.0.last ≡ last)) }
{
    effects_are_gathered::<N>();
    let mut net = load_new(alloc, plan, points, last, &[])?;
    net.run(alloc)?;
    if !has_passed(&net, last) {
        return Ok(None);
    }
    let bytes = capture(alloc, &net, last)?;
    Ok(Some((net, bytes)))
}

/// Loads a net with points and runs it to rest.
fn run_load<N: Node>(
    alloc: Global,
    net: &mut Net<N>,
    points: &[Shared<Point>],
    upto: Stamp,
) -> Result<(), NoMemory>
    requires unspent { net.old.spent ≡ false }
    requires rest { Each IsResting net.old.lives }
    requires none { net.old.gathered ≡ [] }
    requires stamps { net.old.last.0 + length points.now ≤ upto.0 }
    ensures { OnOk result (HasRunLoad N.Node (load_messages points.now upto []) net.old.lives net.new) }
{
    effects_are_gathered::<N>();
    net.load(alloc, points, upto, &[])?;
    net.run(alloc)?;
    Ok(())
}

/// A net of a plan that goes on behind a barrier from what was captured there, and runs a load of points.
/// `None` comes where the bytes aren't a capture of the plan's life.
fn go_on_from<N: Node>(
    alloc: Global,
    plan: LifePlan<N>,
    bytes: &[u8],
    there: Stamp,
    points: &[Shared<Point>],
    upto: Stamp,
) -> Result<Option<Net<N>>, NoMemory>
    requires few { HasFewParents plan }
    requires stamps { there.0 + length points.now ≤ upto.0 }
    ensures { IfOk result (λ gone. IfSome gone (WentOn N.Node plan there bytes.now
        (load_messages points.now upto []))) }
{
    let plans = Vec::from_array(alloc, [plan])?;
    let Ok(mut net) = restore(alloc, plans, 1, bytes, there) else {
        return Ok(None);
    };
    run_load(alloc, &mut net, points, upto)?;
    Ok(Some(net))
}

/// A net of a plan that is loaded with points and a barrier behind some of them, makes these steps, and
/// then runs to rest; and one of the same plan that goes on from what was captured of it at the barrier,
/// and runs to rest too. `None` comes where the steps don't end at the barrier.
fn goes_on<N: Node>(
    alloc: Global,
    plan: LifePlan<N>,
    again: LifePlan<N>,
    points: &[Shared<Point>],
    cut: usize,
    mark: Stamp,
    last: Stamp,
    steps: &[Step],
) -> Result<Option<(Net<N>, Net<N>)>, NoMemory>
    requires few { HasFewParents plan }
    requires few_again { HasFewParents again }
    requires first { AreFirstNodes N.spec N.state N.first plan.nodes }
    requires same { IsSameLife N.spec plan again }
    requires steady { HasSteadyStream N.Node plan }
    requires some { 0 < cut }
    requires inside { cut < length points.now }
    requires mark { mark.0 ≡ cut }
    requires last { last.0 ≡ length points.now }
    ensures { IfOk result (λ both. IfSome both (λ nets.
        RanBoth N.Node plan points.now mark nets.0 nets.1)) }
{
    effects_are_gathered::<N>();
    epochs_go_on::<N>();
    let Some((mut net, bytes)) = stop_inside(alloc, plan, points, mark, last, steps)? else {
        return Ok(None);
    };
    net.run(alloc)?;
    let (_, behind) = points.split_at(cut);
    let Some(other) = go_on_from(alloc, again, bytes.as_slice(), mark, behind, last)? else {
        return Ok(None);
    };
    lives_are_planned::<N>();
    lives_stand::<N>();
    nets_go_on::<N>();
    Ok(Some((net, other)))
}

/// A net of a plan that runs two loads of points; one of the same plan that goes on from what was
/// captured of it between them, and runs the second load; and what the first one collected between them.
fn goes_on_at_rest<N: Node>(
    alloc: Global,
    plan: LifePlan<N>,
    again: LifePlan<N>,
    points: &[Shared<Point>],
    last: Stamp,
    more: &[Shared<Point>],
    end: Stamp,
) -> Result<Option<(Net<N>, Net<N>, Effects)>, NoMemory>
    requires few { HasFewParents plan }
    requires few_again { HasFewParents again }
    requires first { AreFirstNodes N.spec N.state N.first plan.nodes }
    requires again { IsSameLife N.spec plan again }
    requires some { 0 < length points.now }
    requires last { last.0 ≡ length points.now }
    requires end { last.0 + length more.now ≤ end.0 }
    ensures { IfOk result (λ both. IfSome both (λ nets. RanAlike N.Node nets.0 nets.1)) }
{
    let Some((mut net, bytes)) = stop_at_rest(alloc, plan, points, last)? else {
        return Ok(None);
    };
    let before = net.collect(alloc);
    run_load(alloc, &mut net, more, end)?;
    let Some(other) = go_on_from(alloc, again, bytes.as_slice(), last, more, end)? else {
        return Ok(None);
    };
    lives_are_planned::<N>();
    lives_stand::<N>();
    nets_go_on::<N>();
    Ok(Some((net, other, before)))
}

/// What two nets collect, the second of which did what the first one did behind a barrier: the second one
/// the effects of the first one with stamps above the barrier, and in the same order, where no two effects
/// of the first one stand at one place in the order of `collect`.
fn collect_both<N: Node>(
    alloc: Global,
    net: &mut Net<N>,
    other: &mut Net<N>,
    mark: Stamp,
) -> (Effects, Effects)
    requires behind { DidTheRestOf N.Node mark net.old.lives other.old.lives }
    requires gathered { HasGathered [] net.old }
    requires gathered_too { HasGathered [] other.old }
    ensures behind { IsPermutation (effects_behind mark result.0) result.1 }
    ensures in_order { (due : List Effect) → AreRising due
        → IsPermutation (effects_in net.old.lives) due
        → result.1 ≡ effects_behind mark result.0 }
    ensures unspent { net.new.spent ≡ net.old.spent }
    ensures unspent_too { other.new.spent ≡ other.old.spent }
{
    nets_collect_alike::<N>();
    let all = net.collect(alloc);
    let late = other.collect(alloc);
    (all, late)
}

/// The two nets of `goes_on`, and what each of them collects, where the nodes number their effects: behind
/// the barrier it is the same list.
fn goes_on_and_collects<N: Node>(
    alloc: Global,
    plan: LifePlan<N>,
    again: LifePlan<N>,
    points: &[Shared<Point>],
    cut: usize,
    mark: Stamp,
    last: Stamp,
    steps: &[Step],
) -> Result<Option<(Net<N>, Net<N>, Effects, Effects)>, NoMemory>
    requires few { HasFewParents plan }
    requires few_again { HasFewParents again }
    requires first { AreFirstNodes N.spec N.state N.first plan.nodes }
    requires same { IsSameLife N.spec plan again }
    requires steady { HasSteadyStream N.Node plan }
    requires numbers { (p : N.Spec) → NumbersEffects (N.answer p) }
    requires rises { LivesRise N.life N.number 0 (graph_of N.spec plan ∷ []) }
    requires some { 0 < cut }
    requires inside { cut < length points.now }
    requires mark { mark.0 ≡ cut }
    requires last { last.0 ≡ length points.now }
    ensures unspent { IfOk result (λ both. IfSome both (λ nets. nets.0.spent ≡ false)) }
    ensures unspent_too { IfOk result (λ both. IfSome both (λ nets. nets.1.spent ≡ false)) }
    ensures in_order { IfOk result (λ both. IfSome both (λ nets.
        nets.3 ≡ effects_behind mark nets.2)) }
{
    epochs_go_on::<N>();
    let Some((mut net, mut other)) = goes_on(alloc, plan, again, points, cut, mark, last, steps)?
    else {
        return Ok(None);
    };
    let (all, late) = collect_both(alloc, &mut net, &mut other, mark);
    Ok(Some((net, other, all, late)))
}

/// What two nets collect that did the same since their load.
fn collect_same<N: Node>(alloc: Global, net: &mut Net<N>, other: &mut Net<N>) -> (Effects, Effects)
    requires same { AllZip (DidTheSame N.Node) net.old.lives other.old.lives }
    requires gathered { HasGathered [] net.old }
    requires gathered_too { HasGathered [] other.old }
    ensures same { IsPermutation result.0 result.1 }
    ensures in_order { AreRising result.0 → result.1 ≡ result.0 }
    ensures unspent { net.new.spent ≡ net.old.spent }
    ensures unspent_too { other.new.spent ≡ other.old.spent }
{
    nets_collect_alike::<N>();
    let all = net.collect(alloc);
    let late = other.collect(alloc);
    (all, late)
}

/// What is captured of a net at a barrier that each cell has passed.
fn capture_at<N: Node>(
    rt: &(impl AllocGlobal + Abort),
    net: &Net<N>,
    upto: Stamp,
) -> Result<Bytes, Fail>
    requires { net.now.spent ≡ false }
{
    assert!(rt; has_passed(net, upto));
    Ok(capture(rt.alloc(), net, upto)?)
}

/// The nodes of two nets are in the same states.
fn check_states<N: Node>(
    rt: &(impl AllocGlobal + Abort),
    net: &Net<N>,
    other: &Net<N>,
) -> Result<(), Fail>
    requires unspent { net.now.spent ≡ false }
    requires unspent_too { other.now.spent ≡ false }
{
    let left = capture_at(rt, net, Stamp(3))?;
    let right = capture_at(rt, other, Stamp(3))?;
    assert_eq!(rt; left.as_slice(), right.as_slice());
    Ok(())
}

#[test]
fn a_net_goes_on_from_an_inner_barrier(rt: HostRuntime) -> Result<(), Fail> {
    let points = three_points(&rt)?;
    assert!(&rt; points.len() == 3);
    let plan = plan_of_taps(rt.alloc())?;
    let again = plan_of_taps(rt.alloc())?;
    let (mark, last) = (Stamp(2), Stamp(3));
    let Some((net, other, all, late)) = goes_on_and_collects::<TapNode>(
        rt.alloc(),
        plan,
        again,
        &points,
        2,
        mark,
        last,
        &TO_BARRIER,
    )?
    else {
        return Err("no barrier".into());
    };
    check_effects(&rt, &all, ALL)?;
    check_effects(&rt, &late, BEHIND)?;
    check_states(&rt, &net, &other)
}

#[test]
fn a_net_goes_on_from_its_rest(rt: HostRuntime) -> Result<(), Fail> {
    let points = three_points(&rt)?;
    assert!(&rt; points.len() == 3);
    let plan = plan_of_taps(rt.alloc())?;
    let again = plan_of_taps(rt.alloc())?;
    let (first, more) = points.split_at(2);
    let Some((mut net, mut other, before)) = goes_on_at_rest(
        rt.alloc(),
        plan,
        again,
        first,
        Stamp(2),
        more,
        Stamp(3),
    )?
    else {
        return Err("no rest".into());
    };
    check_effects(&rt, &before, BEFORE)?;
    let (all, late) = collect_same::<TapNode>(rt.alloc(), &mut net, &mut other);
    check_effects(&rt, &all, BEHIND)?;
    check_effects(&rt, &late, BEHIND)?;
    check_states(&rt, &net, &other)
}
