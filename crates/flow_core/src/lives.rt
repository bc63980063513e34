//! Lives side by side.

ghost use Rattle.std.specs.Prelude.{◌≡◌, ◌+◌, ◌++◌, ◌<◌, ◌≤◌, Contains, IfOk, IsFalse, IsTrue, OnOk, Some, length, map, slice_get};
ghost use Rattle.std.specs.List.{AllByRecursion as Each};
ghost use Rattle.flow_life.specs.Left.{left_of};
ghost use Rattle.flow_life.specs.Listing.{ends_of};
ghost use Rattle.flow_life.specs.Nodes.{specs_of};
ghost use Rattle.flow_life.specs.Rooms.{rooms_of};
ghost use Rattle.flow_life.specs.Settling.{Grows};
ghost use Rattle.flow_life.specs.Steps.{IsEnabled, moves_of, one_if};
ghost use Rattle.flow_life.specs.Loads.{plan_now};
ghost use Rattle.flow_life.specs.Streams.{plans_of};
ghost use Rattle.flow_life.specs.Trying.{SameEnabled};
ghost use Rattle.flow_cells.specs.declared.parts.CellParts.{CellParts};
ghost use Rattle.merge_node.specs.Merge.{IsClosed};
ghost use Rattle.flow_core.specs.LifeLoads.{effects_since};
ghost use Rattle.flow_core.specs.Nets.{EnabledIn, GrowsIn, HasCell, HasMovedTwice, HasPrefixes, HasStreamsCarried, IsLifeIn, IsResting, IsSound, SomeEnabledIn, cell_count, cell_of, moves_in, numbers_of, plans_from, plans_in, specs_in, step_behind};
ghost use Rattle.flow_core.specs.Playing.{PlaysIn};
ghost use Rattle.flow_core.specs.Done.{GathersAll, effects_in, together};
ghost use Rattle.flow_core.specs.Rooms.{rooms_in};
ghost use Rattle.flow_core.specs.Running.{SameEnabledIn, ends_in, left_in};

use flow_life::{Life, Step};
use kap_base::{Msg, NoMemory, copies};
use node_core::{Effects, Node};
use std::alloc::Global;

/// A life with its number.
#[derive(Drop)]
pub struct Numbered<L> {
    /// Its number.
    pub number: u32,
    /// The life.
    pub life: L,
}

/// The number of the cell that a step moves.
pub(crate) fn cell_of(next: Step) -> u32
    ensures { result ≡ cell_of next }
{
    match next {
        Step::Take { cell, .. } => cell,
        Step::Put { cell, .. } => cell,
    }
}

/// The step that it is for lives behind so many cells.
fn step_behind(next: Step, cells: u32) -> Step
    requires { cells ≤ cell_of next }
    ensures { result ≡ step_behind cells next }
{
    match next {
        Step::Take { cell, input } => Step::Take {
            cell: cell - cells,
            input,
        },
        Step::Put { cell, out } => Step::Put {
            cell: cell - cells,
            out,
        },
    }
}

/// Makes a step of a life, where it is enabled, and gathers the effects, which are of the cell that it moves.
fn step_life<N: Node>(
    alloc: Global,
    life: &mut Numbered<Life<N>>,
    next: Step,
    gathered: &mut Effects,
) -> Result<bool, NoMemory>
    requires sound { IsSound life.old }
    requires cell { cell_of next < length life.old.life.cells }
    ensures number { life.new.number ≡ life.old.number }
    ensures life { OnOk result (IsLifeIn N.Node life.new) }
    ensures sound { OnOk result (IsSound life.new) }
    ensures plans { OnOk result
        (plans_of N.Node life.new.life.cells ≡ plans_of N.Node life.old.life.cells) }
    ensures specs { OnOk result
        (specs_of N.Node life.new.life.cells ≡ specs_of N.Node life.old.life.cells) }
    ensures rooms { OnOk result (rooms_of life.new.life.cells ≡ rooms_of life.old.life.cells) }
    ensures yes { IfOk result (λ made. IsTrue made → IsEnabled life.old.life.cells next) }
    ensures no { IfOk result (λ made. IsFalse made → IsEnabled life.old.life.cells next → ⊥) }
    ensures grows { IfOk result (λ made. IsTrue made
        → Grows next life.old.life.cells life.new.life.cells) }
    ensures count { IfOk result (λ made. moves_of life.new.life.cells
        ≡ moves_of life.old.life.cells + one_if made) }
    ensures ends { OnOk result (ends_of life.new.life.cells ≡ ends_of life.old.life.cells) }
    ensures left { IfOk result (λ made. left_of N.Node life.old.life.cells
        ≡ left_of N.Node life.new.life.cells + one_if made) }
    ensures still { IfOk result (λ made. IsFalse made
        → SameEnabled life.old.life.cells life.new.life.cells) }
    ensures gathers { OnOk result (GathersAll (together (effects_since life.old.life.cells))
        (together (effects_since life.new.life.cells)) gathered.old gathered.new) }
{
    let made = life.life.step(alloc, next)?;
    if !made {
        return Ok(false);
    }
    life.life.gather_from(alloc, cell_of(next), gathered)?;
    Ok(true)
}

/// Makes a step of the life that has the cell, where it is enabled, and gathers the effects.
pub(crate) fn step<N: Node>(
    alloc: Global,
    lives: &mut [Numbered<Life<N>>],
    next: Step,
    gathered: &mut Effects,
) -> Result<bool, NoMemory>
    requires { Each IsSound lives.old }
    ensures numbers { numbers_of lives.new ≡ numbers_of lives.old }
    ensures sound { OnOk result (Each IsSound lives.new) }
    ensures lives { OnOk result (Each (IsLifeIn N.Node) lives.old
        → Each (IsLifeIn N.Node) lives.new) }
    ensures plans { OnOk result (plans_in N.Node lives.new ≡ plans_in N.Node lives.old) }
    ensures specs { OnOk result (specs_in N.Node lives.new ≡ specs_in N.Node lives.old) }
    ensures rooms { OnOk result (rooms_in lives.new ≡ rooms_in lives.old) }
    ensures yes { IfOk result (λ made. IsTrue made → EnabledIn lives.old next) }
    ensures no { IfOk result (λ made. IsFalse made → EnabledIn lives.old next → ⊥) }
    ensures grows { IfOk result (λ made. IsTrue made → GrowsIn next lives.old lives.new) }
    ensures count { IfOk result (λ made. moves_in lives.new ≡ moves_in lives.old + one_if made) }
    ensures ends { OnOk result (ends_in lives.new ≡ ends_in lives.old) }
    ensures left { IfOk result (λ made. left_in N.Node lives.old
        ≡ left_in N.Node lives.new + one_if made) }
    ensures still { IfOk result (λ made. IsFalse made → SameEnabledIn lives.old lives.new) }
    ensures gathers { OnOk result (GathersAll (effects_in lives.old) (effects_in lives.new)
        gathered.old gathered.new) }
{
    let Some((first, others)) = lives.split_first_mut() else {
        return Ok(false);
    };
    let cells = first.life.cells();
    if (cell_of(next) as usize) < cells {
        return step_life(alloc, first, next, gathered);
    }
    step(alloc, others, step_behind(next, cells as u32), gathered)
}

/// Whether nothing is left to do in any life.
pub(crate) fn at_rest<N: Node>(lives: &[Numbered<Life<N>>]) -> bool
    requires { Each IsSound lives.now }
    ensures lives { IsTrue result → Each (IsLifeIn N.Node) lives.now }
    ensures rest { IsTrue result → Each IsResting lives.now }
    ensures busy { IsFalse result → Each IsResting lives.now → ⊥ }
    ensures streams { IsTrue result → Each (HasStreamsCarried N.Node) lives.now }
    ensures twice { IsTrue result → Each (HasMovedTwice N.Node) lives.now }
    ensures none { IsTrue result → left_in N.Node lives.now ≡ 0 }
    ensures alive { IsFalse result → SomeEnabledIn lives.now }
{
    let Some((first, others)) = lives.split_first() else {
        return true;
    };
    if !first.life.at_rest() {
        return false;
    }
    at_rest(others)
}

/// What the cells of lives keep, of which no call failed: among it that each edge has carried a prefix of its
/// stream.
pub(crate) fn keep_lives<N: Node>(lives: &[Numbered<Life<N>>])
    requires { Each IsSound lives.now }
    ensures lives { Each (IsLifeIn N.Node) lives.now }
    ensures prefixes { Each (HasPrefixes N.Node) lives.now }
{
    if let Some((first, others)) = lives.split_first() {
        first.life.keeps();
        keep_lives(others);
    }
}

/// A load begins on a life, and what it gives at once is gathered.
fn load_life<N: Node>(
    alloc: Global,
    life: &mut Numbered<Life<N>>,
    source: Vec<Msg>,
    gathered: &mut Effects,
) -> Result<(), NoMemory>
    requires sound { IsSound life.old }
    requires rest { IsResting life.old }
    requires closed { IsClosed source.items }
    ensures number { life.new.number ≡ life.old.number }
    ensures sound { OnOk result (IsSound life.new) }
    ensures plans { OnOk result (plans_of N.Node life.new.life.cells
        ≡ map (plan_now N.Node source.items) life.old.life.cells) }
    ensures specs { OnOk result
        (specs_of N.Node life.new.life.cells ≡ specs_of N.Node life.old.life.cells) }
    ensures rooms { OnOk result (rooms_of life.new.life.cells ≡ rooms_of life.old.life.cells) }
    ensures ends { OnOk result (ends_of life.new.life.cells ≡ ends_of life.old.life.cells) }
    ensures count { OnOk result (moves_of life.new.life.cells ≡ 0) }
    ensures given { OnOk result (gathered.new
        ≡ gathered.old ++ together (effects_since life.new.life.cells)) }
{
    life.life.load(alloc, source)?;
    life.life.gather(alloc, gathered)?;
    Ok(())
}

/// A load begins on lives, and what they give at once is gathered. The last one gets the messages themselves,
/// each other one copies.
pub(crate) fn load<N: Node>(
    alloc: Global,
    lives: &mut [Numbered<Life<N>>],
    source: Vec<Msg>,
    gathered: &mut Effects,
) -> Result<(), NoMemory>
    requires sound { Each IsSound lives.old }
    requires rest { Each IsResting lives.old }
    requires closed { IsClosed source.items }
    ensures numbers { numbers_of lives.new ≡ numbers_of lives.old }
    ensures sound { OnOk result (Each IsSound lives.new) }
    ensures plans { OnOk result (plans_in N.Node lives.new
        ≡ plans_from N.Node source.items lives.old) }
    ensures specs { OnOk result (specs_in N.Node lives.new ≡ specs_in N.Node lives.old) }
    ensures rooms { OnOk result (rooms_in lives.new ≡ rooms_in lives.old) }
    ensures ends { OnOk result (ends_in lives.new ≡ ends_in lives.old) }
    ensures count { OnOk result (moves_in lives.new ≡ 0) }
    ensures given { OnOk result (gathered.new ≡ gathered.old ++ effects_in lives.new) }
{
    let Some((first, others)) = lives.split_first_mut() else {
        return Ok(());
    };
    if others.is_empty() {
        return load_life(alloc, first, source, gathered);
    }
    let own = copies(alloc, &source)?;
    load_life(alloc, first, own, gathered)?;
    load(alloc, others, source, gathered)
}

/// Tries steps in their order: makes each one that is enabled at its turn, and counts those.
pub(crate) fn play<N: Node>(
    alloc: Global,
    lives: &mut [Numbered<Life<N>>],
    steps: &[Step],
    gathered: &mut Effects,
) -> Result<u64, NoMemory>
    requires { Each IsSound lives.old }
    ensures numbers { numbers_of lives.new ≡ numbers_of lives.old }
    ensures sound { OnOk result (Each IsSound lives.new) }
    ensures plans { OnOk result (plans_in N.Node lives.new ≡ plans_in N.Node lives.old) }
    ensures specs { OnOk result (specs_in N.Node lives.new ≡ specs_in N.Node lives.old) }
    ensures rooms { OnOk result (rooms_in lives.new ≡ rooms_in lives.old) }
    ensures ends { OnOk result (ends_in lives.new ≡ ends_in lives.old) }
    ensures plays { IfOk result (λ made. PlaysIn steps.now lives.old made lives.new) }
    ensures count { IfOk result (λ made. moves_in lives.new ≡ moves_in lives.old + made) }
    ensures gathers { OnOk result (GathersAll (effects_in lives.old) (effects_in lives.new)
        gathered.old gathered.new) }
{
    let mut made = 0;
    'playing: for next in steps {
        if step(alloc, lives, *next, gathered)? {
            made += 1;
        }
    }
    Ok(made)
}

/// The place of the first life with this number, which is there.
pub(crate) fn place_of<N: Node>(lives: &[Numbered<Life<N>>], number: u32) -> usize
    requires { Contains (numbers_of lives.now) number }
    ensures within { result < length lives.now }
    ensures has { slice_get (numbers_of lives.now) result ≡ Some number }
{
    let Some((first, others)) = lives.split_first() else {
        return 0;
    };
    if first.number == number {
        return 0;
    }
    place_of(others, number) + 1
}

/// How many inputs the node of a cell dropped and counted.
pub(crate) fn dropped<N: Node>(lives: &[Numbered<Life<N>>], cell: u32) -> u64
    requires { cell < cell_count lives.now }
    ensures { (c : CellParts N) → HasCell lives.now cell c → result ≡ N.drops (N.state c.core.node) }
{
    let Some((first, others)) = lives.split_first() else {
        return 0;
    };
    let cells = first.life.cells();
    if (cell as usize) < cells {
        return first.life.dropped(cell);
    }
    dropped(others, cell - cells as u32)
}
