//! Steps, one after the other, and the rest.

ghost use Rattle.std.specs.Prelude.{◌≡◌, ◌+◌, IfOk, IsFalse, IsTrue, List, OnOk};
ghost use Rattle.std.specs.List.{AllByRecursion as Each};
ghost use Rattle.kap_base.specs.declared.items.Msg.{Msg};
ghost use Rattle.flow_life.specs.Left.{left_of};
ghost use Rattle.flow_life.specs.Listing.{ends_of};
ghost use Rattle.flow_life.specs.Lives.{IsLife};
ghost use Rattle.flow_life.specs.Loads.{IsGathered};
ghost use Rattle.flow_life.specs.Nodes.{gathered_of, specs_of};
ghost use Rattle.flow_life.specs.Playing.{Plays};
ghost use Rattle.flow_life.specs.Rooms.{rooms_of};
ghost use Rattle.flow_life.specs.Settling.{Grows};
ghost use Rattle.flow_life.specs.Steps.{AreQuiet, HasEmptyBuffers, IsEnabled, SomeEnabled, moves_of, one_if};
ghost use Rattle.flow_life.specs.Streams.{AreStreams, CarriesPrefixes, CarriesStreams, plans_of, stream_length};
ghost use Rattle.flow_life.specs.Trying.{IsGatheredBut, SameEnabled, mover};
ghost use Rattle.flow_life.specs.Wired.{parents_of, sum_of_all};

use crate::moves::{put, take};
use crate::steps::Step;
use flow_cells::Cell;
use kap_base::NoMemory;
use node_core::Node;
use std::alloc::Global;

/// Makes a step, where it is enabled.
pub(crate) fn step<N: Node>(
    alloc: Global,
    cells: &mut [Cell<N>],
    next: Step,
) -> Result<bool, NoMemory>
    requires { IsLife N.Node cells.old }
    ensures life { OnOk result (IsLife N.Node cells.new) }
    ensures prefixes { OnOk result (CarriesPrefixes N.Node cells.new) }
    ensures plans { OnOk result (plans_of N.Node cells.new ≡ plans_of N.Node cells.old) }
    ensures specs { OnOk result (specs_of N.Node cells.new ≡ specs_of N.Node cells.old) }
    ensures gathered { OnOk result (gathered_of cells.new ≡ gathered_of cells.old) }
    ensures rooms { OnOk result (rooms_of cells.new ≡ rooms_of cells.old) }
    ensures yes { IfOk result (λ made. IsTrue made → IsEnabled cells.old next) }
    ensures no { IfOk result (λ made. IsFalse made → IsEnabled cells.old next → ⊥) }
    ensures grows { IfOk result (λ made. IsTrue made → Grows next cells.old cells.new) }
    ensures count { IfOk result (λ made. moves_of cells.new ≡ moves_of cells.old + one_if made) }
    ensures ends { OnOk result (ends_of cells.new ≡ ends_of cells.old) }
    ensures left { IfOk result (λ made. left_of N.Node cells.old
        ≡ left_of N.Node cells.new + one_if made) }
    ensures still { IfOk result (λ made. IsFalse made → SameEnabled cells.old cells.new) }
    ensures others { OnOk result (Each IsGathered cells.old
        → IsGatheredBut (mover next) cells.new) }
    ensures idle { IfOk result (λ made. IsFalse made
        → Each IsGathered cells.old → Each IsGathered cells.new) }
{
    match next {
        Step::Take { cell, input } => take(alloc, cells, cell, input),
        Step::Put { cell, out } => Ok(put(cells, cell, out)),
    }
}

/// Tries steps in their order: makes each one that is enabled at its turn, and counts those.
pub(crate) fn play<N: Node>(
    alloc: Global,
    cells: &mut [Cell<N>],
    steps: &[Step],
) -> Result<u64, NoMemory>
    requires { IsLife N.Node cells.old }
    ensures life { OnOk result (IsLife N.Node cells.new) }
    ensures prefixes { OnOk result (CarriesPrefixes N.Node cells.new) }
    ensures plans { OnOk result (plans_of N.Node cells.new ≡ plans_of N.Node cells.old) }
    ensures specs { OnOk result (specs_of N.Node cells.new ≡ specs_of N.Node cells.old) }
    ensures gathered { OnOk result (gathered_of cells.new ≡ gathered_of cells.old) }
    ensures rooms { OnOk result (rooms_of cells.new ≡ rooms_of cells.old) }
    ensures plays { IfOk result (λ made. Plays steps.now cells.old made cells.new) }
    ensures count { IfOk result (λ made. moves_of cells.new ≡ moves_of cells.old + made) }
{
    let mut made = 0;
    'playing: for next in steps {
        if step(alloc, cells, *next)? {
            made += 1;
        }
    }
    Ok(made)
}

/// Whether nothing waits at any cell, and nothing is on an edge.
fn are_quiet<N: Node>(cells: &[Cell<N>]) -> bool
    ensures yes { IsTrue result → AreQuiet cells.now }
    ensures no { IsFalse result → AreQuiet cells.now → ⊥ }
{
    let Some((first, others)) = cells.split_first() else {
        return true;
    };
    if !first.is_quiet() {
        return false;
    }
    are_quiet(others)
}

/// Whether nothing is left to do.
pub(crate) fn at_rest<N: Node>(cells: &[Cell<N>]) -> bool
    requires { IsLife N.Node cells.now }
    ensures rest { IsTrue result → AreQuiet cells.now }
    ensures busy { IsFalse result → AreQuiet cells.now → ⊥ }
    ensures empty { IsTrue result → Each HasEmptyBuffers cells.now }
    ensures streams { IsTrue result → CarriesStreams N.Node cells.now }
    ensures twice { IsTrue result → (streams : List (List Msg))
        → AreStreams (plans_of N.Node cells.now) streams
        → moves_of cells.now ≡ sum_of_all (stream_length streams) (parents_of cells.now)
        + sum_of_all (stream_length streams) (parents_of cells.now) }
    ensures none { IsTrue result → left_of N.Node cells.now ≡ 0 }
    ensures alive { IsFalse result → SomeEnabled cells.now }
{
    are_quiet(cells)
}
