//! Lives are made from plans.

ghost use Rattle.std.specs.Prelude.{◌≡◌, ◌<◌, ◌≤◌, ◌++◌, false, IfOk, OnOk, length, reverse};
ghost use Rattle.std.specs.List.{AllByRecursion as Each};
ghost use Rattle.flow_cells.specs.Made.{HasNothing};
ghost use Rattle.flow_cells.specs.Rooms.{HasRoom};
ghost use Rattle.flow_life.specs.Loads.{IsGathered};
ghost use Rattle.flow_life.specs.Making.{HasCarriedNothing, IsClean, nodes_of, passed_of};
ghost use Rattle.flow_life.specs.Steps.{AreQuiet};
ghost use Rattle.flow_life.specs.Wired.{parents_of};
ghost use Rattle.flow_core.specs.Making.{AreLivesBehind, CanAddAll, HasFewParents, IsLifeBehind};
ghost use Rattle.flow_core.specs.Rooms.{HasRoomIn};

use crate::lives::Numbered;
use edge_queue::CAPACITY_LIMIT;
use flow_life::Life;
use kap_base::{NoMemory, Stamp};
use node_core::Node;
use std::alloc::Global;
use task_run::{Ids, LifePlan};

/// Adds cells of nodes, the last one first, with these parents, the first ones first, behind a barrier.
fn add_cells<N: Node>(
    alloc: Global,
    life: &mut Life<N>,
    mut nodes: Vec<N>,
    parents: &[Ids],
    capacity: u32,
    stamp: Stamp,
) -> Result<(), NoMemory>
    requires unspent { life.old.spent ≡ false }
    requires nothing { Each HasNothing life.old.cells }
    requires can { CanAddAll (λ n. N.ports (N.spec n)) (length life.old.cells)
        (reverse nodes.items) parents.now }
    requires rest { AreQuiet life.old.cells }
    requires carried { Each HasCarriedNothing life.old.cells }
    requires room { Each (HasRoom capacity) life.old.cells }
    requires gathered { Each IsGathered life.old.cells }
    requires clean { Each IsClean life.old.cells }
    requires passed { Each (λ b. b ≡ stamp.0) (passed_of life.old.cells) }
    requires some { 0 < capacity }
    requires limit { capacity ≤ CAPACITY_LIMIT }
    ensures unspent { OnOk result (life.new.spent ≡ false) }
    ensures nodes { OnOk result (nodes_of life.new.cells
        ≡ nodes_of life.old.cells ++ reverse nodes.items) }
    ensures parents { OnOk result (parents_of life.new.cells
        ≡ parents_of life.old.cells ++ parents.now) }
    ensures rest { OnOk result (AreQuiet life.new.cells) }
    ensures carried { OnOk result (Each HasCarriedNothing life.new.cells) }
    ensures nothing { OnOk result (Each HasNothing life.new.cells) }
    ensures room { OnOk result (Each (HasRoom capacity) life.new.cells) }
    ensures gathered { OnOk result (Each IsGathered life.new.cells) }
    ensures clean { OnOk result (Each IsClean life.new.cells) }
    ensures passed { OnOk result (Each (λ b. b ≡ stamp.0) (passed_of life.new.cells)) }
{
    let Some((first, others)) = parents.split_first() else {
        return Ok(());
    };
    let Some(node) = nodes.pop() else {
        return Ok(());
    };
    life.add(alloc, node, first.as_slice(), capacity, stamp)?;
    add_cells(alloc, life, nodes, others, capacity, stamp)
}

/// The life of a plan, behind a barrier.
pub(crate) fn life_of<N: Node>(
    alloc: Global,
    plan: LifePlan<N>,
    capacity: u32,
    stamp: Stamp,
) -> Result<Numbered<Life<N>>, NoMemory>
    requires few { HasFewParents plan }
    requires some { 0 < capacity }
    requires limit { capacity ≤ CAPACITY_LIMIT }
    ensures life { IfOk result (IsLifeBehind N.Node stamp.0 plan) }
    ensures room { IfOk result (HasRoomIn capacity) }
{
    let number = plan.life;
    let mut nodes = plan.nodes.into_items();
    let parents = plan.parents.into_items();
    nodes.reverse();
    let mut life = Life::new(alloc);
    add_cells(alloc, &mut life, nodes, &parents, capacity, stamp)?;
    Ok(Numbered { number, life })
}

/// The lives of plans, in their order, behind a barrier.
pub(crate) fn lives_of<N: Node>(
    alloc: Global,
    plans: Vec<LifePlan<N>>,
    capacity: u32,
    stamp: Stamp,
) -> Result<Vec<Numbered<Life<N>>>, NoMemory>
    requires few { Each HasFewParents plans.items }
    requires some { 0 < capacity }
    requires limit { capacity ≤ CAPACITY_LIMIT }
    ensures lives { IfOk result (λ lives. AreLivesBehind N.Node stamp.0 plans.items lives.items) }
    ensures room { IfOk result (λ lives. Each (HasRoomIn capacity) lives.items) }
{
    let mut lives = Vec::new(alloc);
    'making: for plan in plans {
        lives.push(life_of(alloc, plan, capacity, stamp)?)?;
    }
    Ok(lives)
}
