//! The steps of a net, counted by hand.
//!
//! One tap feeds both ports of another. A load of three points has four messages with its barrier, each of
//! which is put and taken once on each of two edges: 16 steps.

ghost use Rattle.std.specs.Prelude.{◌≡◌, false, IfOk, OnOk};
ghost use Rattle.flow_core.specs.Making.{HasFewParents};

use crate::points::three_points;
use crate::taps::{TapNode, plan_of_taps};
use flow_core::Net;
use flow_life::Step;
use kap_base::{NoMemory, Point, Shared, Stamp};
use node_core::Node;
use std::alloc::{AllocError, Global};
use std::process::Abort;
use std::test::Fail;
use task_run::LifePlan;

/// All steps, those of the first cell first.
const LISTED: [Step; 4] = [
    Step::Put { cell: 0, out: 0 },
    Step::Put { cell: 0, out: 1 },
    Step::Take { cell: 1, input: 0 },
    Step::Take { cell: 1, input: 1 },
];

/// Steps with room for one message on each edge, behind a load, and whether each is made. Four are.
const MADE: [(Step, bool); 11] = [
    // No such out, cell or input; and nothing is on the edge.
    (Step::Put { cell: 0, out: 2 }, false),
    (Step::Put { cell: 1, out: 0 }, false),
    (Step::Take { cell: 2, input: 0 }, false),
    (Step::Take { cell: 1, input: 2 }, false),
    (Step::Take { cell: 1, input: 0 }, false),
    // The edge has one place, and the other edge one of its own.
    (Step::Put { cell: 0, out: 0 }, true),
    (Step::Put { cell: 0, out: 0 }, false),
    (Step::Put { cell: 0, out: 1 }, true),
    (Step::Take { cell: 1, input: 0 }, true),
    (Step::Take { cell: 1, input: 0 }, false),
    (Step::Put { cell: 0, out: 0 }, true),
];

/// A net of a plan with room for one message on each edge, behind a load of at most three points.
fn loaded<N: Node>(
    alloc: Global,
    plan: LifePlan<N>,
    points: &[Shared<Point>],
) -> Result<Net<N>, NoMemory>
    requires few { HasFewParents plan }
    ensures unspent { IfOk result (λ net. net.spent ≡ false) }
{
    if points.len() > 3 {
        return Err(NoMemory);
    }
    let plans = Vec::from_array(alloc, [plan])?;
    let mut net = Net::make(alloc, plans, 1)?;
    net.load(alloc, points, Stamp(3), &[])?;
    Ok(net)
}

/// Whether each step is made, or isn't enabled, as it is due, one after the other.
fn are_made<N: Node>(
    alloc: Global,
    net: &mut Net<N>,
    steps: &[(Step, bool)],
) -> Result<bool, NoMemory>
    requires { net.old.spent ≡ false }
    ensures unspent { OnOk result (net.new.spent ≡ false) }
{
    let Some((first, others)) = steps.split_first() else {
        return Ok(true);
    };
    let (next, due) = *first;
    let made = net.step(alloc, next)?;
    let more = are_made(alloc, net, others)?;
    Ok(made == due && more)
}

/// All steps, so often that nothing is left to do.
fn rounds(alloc: Global) -> Result<Vec<Step>, AllocError> {
    let mut steps = Vec::new(alloc);
    for _ in 0..8 {
        steps.extend_from_slice(&LISTED)?;
    }
    Ok(steps)
}

/// The steps of a net of a plan are listed and made, the last twelve by a list that is tried again and again.
fn check_steps<N: Node>(rt: &(impl AllocGlobal + Abort), plan: LifePlan<N>) -> Result<(), Fail>
    requires few { HasFewParents plan }
{
    let alloc = rt.alloc();
    let mut net = loaded(alloc, plan, &three_points(rt)?)?;
    let listed = net.steps(alloc)?;
    assert_eq!(rt; listed.as_slice(), LISTED.as_slice());
    assert!(rt; are_made(alloc, &mut net, &MADE)?);
    assert_eq!(rt; net.play(alloc, &rounds(alloc)?)?, 12);
    assert!(rt; net.at_rest());
    Ok(())
}

#[test]
fn steps_are_listed_and_made(rt: HostRuntime) -> Result<(), Fail> {
    check_steps::<TapNode>(&rt, plan_of_taps(rt.alloc())?)
}
