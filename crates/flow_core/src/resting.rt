//! Steps are made until none can be made.

ghost use Rattle.std.specs.Prelude.{◌<◌, ◌≤◌, IfOk, IsFalse, IsTrue, OnOk, length};
ghost use Rattle.std.specs.List.{AllByRecursion as Each};
ghost use Rattle.flow_core.specs.Nets.{IsLifeIn, IsResting, IsSound};
ghost use Rattle.flow_core.specs.Running.{AreOff, GoesOn, IsOff, SameEnabledIn, left_in};

use crate::listing::list_steps;
use crate::lives::{Numbered, cell_of, step};
use flow_life::{Life, Step};
use kap_base::NoMemory;
use node_core::{Effects, Node};
use std::alloc::Global;

/// Makes a step, where it can be made.
fn try_step<N: Node>(
    alloc: Global,
    lives: &mut [Numbered<Life<N>>],
    next: Step,
    gathered: &mut Effects,
) -> Result<bool, NoMemory>
    requires { Each IsSound lives.old }
    ensures sound { OnOk result (Each IsSound lives.new) }
    ensures goes { OnOk result (GoesOn N.Node lives.old lives.new gathered.old gathered.new) }
    ensures fewer { IfOk result (λ made. IsTrue made
        → left_in N.Node lives.new < left_in N.Node lives.old) }
    ensures same { IfOk result (λ made. IsFalse made → SameEnabledIn lives.old lives.new) }
    ensures off { IfOk result (λ made. IsFalse made → IsOff lives.new next) }
{
    let made = step(alloc, lives, next, gathered)?;
    Ok(made)
}

/// Makes the first of some steps that can be made. `false` comes where none can.
fn make_first<N: Node>(
    alloc: Global,
    lives: &mut [Numbered<Life<N>>],
    steps: &[Step],
    gathered: &mut Effects,
) -> Result<bool, NoMemory>
    requires { Each IsSound lives.old }
    ensures sound { OnOk result (Each IsSound lives.new) }
    ensures goes { OnOk result (GoesOn N.Node lives.old lives.new gathered.old gathered.new) }
    ensures fewer { IfOk result (λ made. IsTrue made
        → left_in N.Node lives.new < left_in N.Node lives.old) }
    ensures same { IfOk result (λ made. IsFalse made → SameEnabledIn lives.old lives.new) }
    ensures none { IfOk result (λ made. IsFalse made → AreOff lives.new steps.now) }
{
    'trying: for next in steps {
        if try_step(alloc, lives, *next, gathered)? {
            return Ok(true);
        }
    }
    Ok(false)
}

/// Makes the first step that can be made, from a place on and then round. `false` comes where none can.
fn make_next<N: Node>(
    alloc: Global,
    lives: &mut [Numbered<Life<N>>],
    steps: &[Step],
    place: usize,
    gathered: &mut Effects,
) -> Result<bool, NoMemory>
    requires sound { Each IsSound lives.old }
    requires place { place < length steps.now }
    ensures sound { OnOk result (Each IsSound lives.new) }
    ensures goes { OnOk result (GoesOn N.Node lives.old lives.new gathered.old gathered.new) }
    ensures fewer { IfOk result (λ made. IsTrue made
        → left_in N.Node lives.new < left_in N.Node lives.old) }
    ensures none { IfOk result (λ made. IsFalse made → AreOff lives.new steps.now) }
{
    let (before, behind) = steps.split_at(place);
    if make_first(alloc, lives, behind, gathered)? {
        return Ok(true);
    }
    make_first(alloc, lives, before, gathered)
}

/// Makes steps in the order that a number says, until none can be made. With c steps in all, the turn j
/// begins at the place number + j · (2 · number + 1) mod c.
fn play_turns<N: Node>(
    alloc: Global,
    lives: &mut [Numbered<Life<N>>],
    steps: &[Step],
    number: u32,
    gathered: &mut Effects,
) -> Result<(), NoMemory>
    requires { Each IsSound lives.old }
    ensures sound { OnOk result (Each IsSound lives.new) }
    ensures goes { OnOk result (GoesOn N.Node lives.old lives.new gathered.old gathered.new) }
    ensures none { OnOk result (AreOff lives.new steps.now) }
{
    if steps.is_empty() {
        return Ok(());
    }
    let mut place = number as usize % steps.len();
    let stride = (2 * number as usize + 1) % steps.len();
    'turning: while make_next(alloc, lives, steps, place, gathered)? {
        place = (place + stride) % steps.len();
    }
    Ok(())
}

/// Makes some steps, the first that can be made each time, until none of them can.
fn exhaust<N: Node>(
    alloc: Global,
    lives: &mut [Numbered<Life<N>>],
    steps: &[Step],
    gathered: &mut Effects,
) -> Result<(), NoMemory>
    requires { Each IsSound lives.old }
    ensures sound { OnOk result (Each IsSound lives.new) }
    ensures goes { OnOk result (GoesOn N.Node lives.old lives.new gathered.old gathered.new) }
{
    'making: while make_first(alloc, lives, steps, gathered)? {}
    Ok(())
}

/// How many of the first steps move the cell that the first one moves.
fn same_cell(steps: &[Step]) -> usize
    ensures within { result ≤ length steps.now }
    ensures some { 0 < length steps.now → 0 < result }
{
    let Some((first, others)) = steps.split_first() else {
        return 0;
    };
    let cell = cell_of(*first);
    let mut count = 1;
    'counting: for next in others {
        if cell_of(*next) != cell {
            return count;
        }
        count += 1;
    }
    count
}

/// Makes all that each cell can, cell by cell.
fn each_cell<N: Node>(
    alloc: Global,
    lives: &mut [Numbered<Life<N>>],
    steps: &[Step],
    gathered: &mut Effects,
) -> Result<(), NoMemory>
    requires { Each IsSound lives.old }
    ensures sound { OnOk result (Each IsSound lives.new) }
    ensures goes { OnOk result (GoesOn N.Node lives.old lives.new gathered.old gathered.new) }
{
    let mut rest = steps;
    'cells: while !rest.is_empty() {
        let (own, others) = rest.split_at(same_cell(rest));
        exhaust(alloc, lives, own, gathered)?;
        rest = others;
    }
    Ok(())
}

/// Makes all that each cell can, cell by cell and again, until none can be made.
fn run_passes<N: Node>(
    alloc: Global,
    lives: &mut [Numbered<Life<N>>],
    steps: &[Step],
    gathered: &mut Effects,
) -> Result<(), NoMemory>
    requires { Each IsSound lives.old }
    ensures sound { OnOk result (Each IsSound lives.new) }
    ensures goes { OnOk result (GoesOn N.Node lives.old lives.new gathered.old gathered.new) }
    ensures none { OnOk result (AreOff lives.new steps.now) }
{
    'passing: while make_first(alloc, lives, steps, gathered)? {
        each_cell(alloc, lives, steps, gathered)?;
    }
    Ok(())
}

/// Makes steps in the order that a number says, until nothing is left to do.
pub(crate) fn play_by<N: Node>(
    alloc: Global,
    lives: &mut [Numbered<Life<N>>],
    number: u32,
    gathered: &mut Effects,
) -> Result<(), NoMemory>
    requires { Each IsSound lives.old }
    ensures sound { OnOk result (Each IsSound lives.new) }
    ensures goes { OnOk result (GoesOn N.Node lives.old lives.new gathered.old gathered.new) }
    ensures rest { OnOk result (Each IsResting lives.new) }
    ensures lives { OnOk result (Each (IsLifeIn N.Node) lives.new) }
{
    let steps = list_steps(alloc, lives)?;
    play_turns(alloc, lives, &steps, number, gathered)?;
    Ok(())
}

/// Makes all that each cell can, cell by cell and again, until nothing is left to do.
pub(crate) fn run<N: Node>(
    alloc: Global,
    lives: &mut [Numbered<Life<N>>],
    gathered: &mut Effects,
) -> Result<(), NoMemory>
    requires { Each IsSound lives.old }
    ensures sound { OnOk result (Each IsSound lives.new) }
    ensures goes { OnOk result (GoesOn N.Node lives.old lives.new gathered.old gathered.new) }
    ensures rest { OnOk result (Each IsResting lives.new) }
    ensures lives { OnOk result (Each (IsLifeIn N.Node) lives.new) }
{
    let steps = list_steps(alloc, lives)?;
    run_passes(alloc, lives, &steps, gathered)?;
    Ok(())
}
