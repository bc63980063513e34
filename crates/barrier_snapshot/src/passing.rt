//! Which barriers the cells of a net have passed.

ghost use Rattle.std.specs.Prelude.{IsFalse, IsTrue};
ghost use Rattle.barrier_snapshot.specs.Barriers.{HavePassed, cells_in};
ghost use Rattle.barrier_snapshot.specs.Passing.{AreBehind, IsBehind, StandAt};
ghost use Rattle.barrier_snapshot.specs.Steady.{HasSteadyStreams};

use flow_cells::Cell;
use flow_core::{Net, Numbered};
use flow_life::Life;
use kap_base::Stamp;
use node_core::Node;

/// Whether a cell's state at the last barrier that it passed can be had, and this is the barrier, where it
/// has inputs.
fn is_behind<N: Node>(cell: &Cell<N>, upto: Stamp) -> bool
    ensures yes { IsTrue result → IsBehind upto cell.now cell.now.ins.items }
    ensures no { IsFalse result → IsBehind upto cell.now cell.now.ins.items → ⊥ }
{
    if !cell.has_kept() {
        return false;
    }
    if cell.inputs() == 0 {
        return true;
    }
    cell.passed() == upto
}

/// Whether it is the last one that each of these cells has passed which has inputs.
fn are_behind<N: Node>(cells: &[Cell<N>], upto: Stamp) -> bool
    ensures yes { IsTrue result → AreBehind upto cells.now }
    ensures no { IsFalse result → AreBehind upto cells.now → ⊥ }
{
    let Some((first, others)) = cells.split_first() else {
        return true;
    };
    if !is_behind(first, upto) {
        return false;
    }
    are_behind(others, upto)
}

/// Whether it is the last one that each of these cells has passed.
fn stand_at<N: Node>(cells: &[Cell<N>], upto: Stamp) -> bool
    ensures yes { IsTrue result → StandAt upto cells.now }
    ensures no { IsFalse result → StandAt upto cells.now → ⊥ }
{
    let Some((first, others)) = cells.split_first() else {
        return true;
    };
    if !first.has_kept() {
        return false;
    }
    if first.passed() != upto {
        return false;
    }
    stand_at(others, upto)
}

/// Whether it is the last one that each cell of lives has passed.
fn all_stand_at<N: Node>(lives: &[Numbered<Life<N>>], upto: Stamp) -> bool
    ensures yes { IsTrue result → StandAt upto (cells_in lives.now) }
    ensures no { IsFalse result → StandAt upto (cells_in lives.now) → ⊥ }
{
    let Some((first, others)) = lives.split_first() else {
        return true;
    };
    if !stand_at(first.life.all_cells(), upto) {
        return false;
    }
    all_stand_at(others, upto)
}

/// Whether it is the last one that each cell of lives has passed which has inputs.
fn all_behind<N: Node>(lives: &[Numbered<Life<N>>], upto: Stamp) -> bool
    ensures yes { IsTrue result → AreBehind upto (cells_in lives.now) }
    ensures no { IsFalse result → AreBehind upto (cells_in lives.now) → ⊥ }
{
    let Some((first, others)) = lives.split_first() else {
        return true;
    };
    if !are_behind(first.life.all_cells(), upto) {
        return false;
    }
    all_behind(others, upto)
}

/// Whether a barrier is the last one that each cell has passed, those of streams too: then it can
/// be captured.
pub fn has_passed<N: Node>(net: &Net<N>, upto: Stamp) -> bool
    ensures stands { IsTrue result → StandAt upto (cells_in net.now.lives) }
    ensures no { IsFalse result → StandAt upto (cells_in net.now.lives) → ⊥ }
    ensures passed { IsTrue result → HavePassed N.Node upto (cells_in net.now.lives) }
{
    all_stand_at(net.lives(), upto)
}

/// Whether a barrier is the last one that each cell has passed but those of streams: then it can be
/// captured, where the nodes of streams have one state alone, and the barrier is one of their load.
pub fn has_passed_inside<N: Node>(net: &Net<N>, upto: Stamp) -> bool
    ensures behind { IsTrue result → AreBehind upto (cells_in net.now.lives) }
    ensures no { IsFalse result → AreBehind upto (cells_in net.now.lives) → ⊥ }
    ensures passed { IsTrue result → HasSteadyStreams N.Node upto net.now.lives
        → HavePassed N.Node upto (cells_in net.now.lives) }
{
    all_behind(net.lives(), upto)
}
