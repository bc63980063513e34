//! Nodes take the states that bytes hold.

ghost use Rattle.std.specs.Prelude.{◌≡◌, ◌≤◌, ◌^◌, ℕ, Err, IfErr, IfOk, List, MatchOption, OnOk, length, map};
ghost use Rattle.state_code.specs.Places.{Passes};
ghost use Rattle.state_code.specs.declared.fault.CodeFault.TheVariants.{At as at_place};
ghost use Rattle.barrier_snapshot.specs.Captures.{IsCapture, in_lives};
ghost use Rattle.barrier_snapshot.specs.Loading.{AreInStates, IsSameLife, LoadsLives};
ghost use Rattle.barrier_snapshot.specs.Faults.{FaultsAt};
ghost use Rattle.barrier_snapshot.specs.Reading.{LoadsOrNot, StopsBy, outside, read_each, read_whole};

use kap_base::ItemList;
use node_core::Node;
use state_code::{CodeFault, Cursor};
use std::alloc::Global;
use std::vec::IntoIter;
use task_run::LifePlan;

/// A fault inside a byte string, which names the place of the string.
fn outside(offset: u64, fault: CodeFault) -> CodeFault
    ensures { result ≡ outside offset fault }
{
    match fault {
        CodeFault::At(_) => CodeFault::At(offset),
        CodeFault::NoMemory => CodeFault::NoMemory,
    }
}

/// Has a node take the state whose spelling is the byte string at the cursor.
fn load_node<N: Node>(alloc: Global, node: &mut N, from: &mut Cursor) -> Result<(), CodeFault>
    ensures spec { N.spec node.new ≡ N.spec node.old }
    ensures loads { LoadsOrNot (read_whole (N.read (N.spec node.old)))
        from.old from.new (N.state node.new) result }
{
    let offset = from.offset();
    let piece = from.bytes(alloc)?;
    let mut inside = Cursor::new(piece.as_slice());
    if let Err(fault) = node.load(alloc, &mut inside) {
        return Err(outside(offset, fault));
    }
    if !inside.is_done() {
        return Err(CodeFault::At(offset));
    }
    Ok(())
}

/// Has nodes take the states that stand at the cursor, one after the other.
fn load_nodes<N: Node>(alloc: Global, nodes: &mut [N], from: &mut Cursor) -> Result<(), CodeFault>
    ensures specs { map N.spec nodes.new ≡ map N.spec nodes.old }
    ensures ok { OnOk result (Passes (read_each N.read (map N.spec nodes.old))
        from.old from.new (map N.state nodes.new)) }
    ensures err { IfErr result (StopsBy N.read (map N.spec nodes.old) from.old) }
{
    if let Some((first, others)) = nodes.split_first_mut() {
        load_node(alloc, first, from)?;
        load_nodes(alloc, others, from)?;
    }
    Ok(())
}

/// The same of a list of nodes.
fn load_all<N: Node>(alloc: Global, nodes: &mut Vec<N>, from: &mut Cursor) -> Result<(), CodeFault>
    ensures specs { map N.spec nodes.new.items ≡ map N.spec nodes.old.items }
    ensures ok { OnOk result (Passes (read_each N.read (map N.spec nodes.old.items))
        from.old from.new (map N.state nodes.new.items)) }
    ensures err { IfErr result (StopsBy N.read (map N.spec nodes.old.items) from.old) }
{
    load_nodes(alloc, nodes, from)
}

/// Has the nodes of a life take the states that stand at the cursor.
fn load_life<N: Node>(
    alloc: Global,
    plan: LifePlan<N>,
    from: &mut Cursor,
) -> Result<LifePlan<N>, CodeFault>
    ensures same { IfOk result (IsSameLife N.spec plan) }
    ensures ok { IfOk result (λ loaded. Passes (read_each N.read (map N.spec plan.nodes))
        from.old from.new (map N.state loaded.nodes)) }
    ensures err { IfErr result (StopsBy N.read (map N.spec plan.nodes) from.old) }
{
    let life = plan.life;
    let parents = plan.parents;
    let mut nodes = plan.nodes.into_items();
    load_all(alloc, &mut nodes, from)?;
    Ok(LifePlan {
        life,
        nodes: ItemList::from_items(nodes),
        parents,
    })
}

/// Has the nodes of lives take the states that stand at the cursor, life by life, and puts the
/// lives behind others.
fn load_lives<N: Node>(
    alloc: Global,
    mut rest: IntoIter<LifePlan<N>>,
    from: &mut Cursor,
    loaded: &mut Vec<LifePlan<N>>,
) -> Result<(), CodeFault>
    ensures ok { OnOk result (LoadsLives N.Node rest.rest.items from.old from.new
        loaded.old.items loaded.new.items) }
    ensures err { IfErr result (StopsBy N.read (in_lives N.spec rest.rest.items) from.old) }
{
    let Some(plan) = rest.next() else {
        return Ok(());
    };
    let life = match load_life(alloc, plan, from) {
        Ok(life) => life,
        Err(fault) => return Err(fault),
    };
    let Ok(()) = loaded.push(life) else {
        return Err(CodeFault::NoMemory);
    };
    match load_lives(alloc, rest, from, loaded) {
        Ok(()) => Ok(()),
        Err(fault) => Err(fault),
    }
}

/// How many nodes lives have. `None` comes exactly where they are 2^32 or more.
fn count<N: Node>(plans: &[LifePlan<N>]) -> Option<u32>
    ensures { MatchOption result (2 ^ 32 ≤ length (in_lives N.spec plans.now))
        (λ count. count ≡ length (in_lives N.spec plans.now)) }
{
    let Some((first, others)) = plans.split_first() else {
        return Some(0);
    };
    let Ok(own) = u32::try_from(first.nodes.len()) else {
        return None;
    };
    let Some(behind) = count(others) else {
        return None;
    };
    own.checked_add(behind)
}

/// The same lives, in the states that the bytes hold. `At` comes exactly where the bytes hold no
/// states of their nodes. It names the place of the first byte string that isn't the state of its
/// node, or that of the bytes behind the last one, or 0 where the number of the states is another.
pub(crate) fn load_capture<N: Node>(
    alloc: Global,
    plans: Vec<LifePlan<N>>,
    bytes: &[u8],
) -> Result<Vec<LifePlan<N>>, CodeFault>
    ensures ok { IfOk result (λ loaded. AreInStates N.Node plans.items bytes.now loaded.items) }
    ensures at { (offset : ℕ) (states : List N.State) → result ≡ Err (at_place offset)
        → IsCapture N.fits N.spell (in_lives N.spec plans.items) states bytes.now → ⊥ }
    ensures named { (offset : ℕ) → result ≡ Err (at_place offset)
        → FaultsAt N.fits N.spell (in_lives N.spec plans.items) bytes.now offset }
{
    let mut from = Cursor::new(bytes);
    let number = match from.u32() {
        Ok(number) => number,
        Err(fault) => return Err(fault),
    };
    let Some(own) = count(&plans) else {
        return Err(CodeFault::At(0));
    };
    if own != number {
        return Err(CodeFault::At(0));
    }
    let mut loaded = Vec::new(alloc);
    if let Err(fault) = load_lives(alloc, plans.into_iter(), &mut from, &mut loaded) {
        return Err(fault);
    }
    if !from.is_done() {
        return Err(CodeFault::At(from.offset()));
    }
    Ok(loaded)
}
