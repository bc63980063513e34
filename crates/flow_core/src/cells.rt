//! The cells of a net while each moves by itself.

ghost use Rattle.std.specs.Prelude.{IsFalse, IsTrue, List, OnOk};
ghost use Rattle.std.specs.List.{AllByRecursion as Each};
ghost use Rattle.flow_core.specs.Away.{AreGivenBack, HasMovedLife, HasUnspentCells, IsBack, IsGivenBack, IsLooseLife};
ghost use Rattle.flow_core.specs.Nets.{IsLifeIn, IsSound, NumberedLife};

use crate::lives::Numbered;
use flow_life::Life;
use kap_base::NoMemory;
use node_core::{Effects, Node};
use std::alloc::Global;

/// The cells of a net, in the order of their numbers: life by life, and in a life node by node.
#[derive(Drop)]
pub struct Cells<N: Node> {
    /// The lives that have them.
    pub lives: Vec<Numbered<Life<N>>>,
}

/// Settles the cells of a life, and gathers their effects.
fn give_life<N: Node>(
    alloc: Global,
    life: &mut Numbered<Life<N>>,
    gathered: &mut Effects,
) -> Result<(), NoMemory>
    requires { IsLooseLife N.Node life.old }
    ensures sound { OnOk result (IsSound life.new) }
    ensures back { OnOk result ((before : NumberedLife N) → IsSound before
        → IsLifeIn N.Node before → HasMovedLife before life.old
        → IsGivenBack N.Node before life.new gathered.old gathered.new) }
{
    life.life.settle()?;
    life.life.gather(alloc, gathered)?;
    Ok(())
}

/// Settles the cells of each life, and gathers their effects.
pub(crate) fn give<N: Node>(
    alloc: Global,
    lives: &mut [Numbered<Life<N>>],
    gathered: &mut Effects,
) -> Result<(), NoMemory>
    requires { Each (IsLooseLife N.Node) lives.old }
    ensures sound { OnOk result (Each IsSound lives.new) }
    ensures back { OnOk result ((before : List (NumberedLife N)) → IsBack N.Node before lives.old
        → AreGivenBack N.Node before lives.new gathered.old gathered.new) }
{
    if let Some((first, others)) = lives.split_first_mut() {
        give_life(alloc, first, gathered)?;
        give(alloc, others, gathered)?;
    }
    Ok(())
}

/// Whether no call on a cell of lives failed in the middle.
fn are_unspent<N: Node>(lives: &[Numbered<Life<N>>]) -> bool
    ensures yes { IsTrue result → Each HasUnspentCells lives.now }
    ensures no { IsFalse result → Each HasUnspentCells lives.now → ⊥ }
{
    let Some((first, others)) = lives.split_first() else {
        return true;
    };
    if !first.life.has_unspent_cells() {
        return false;
    }
    are_unspent(others)
}

impl<N: Node> Cells<N> {
    ghost use Rattle.std.specs.Prelude.{IsFalse, IsTrue};
    ghost use Rattle.std.specs.List.{AllByRecursion as Each};
    ghost use Rattle.flow_core.specs.Away.{HasUnspentCells};

    /// Whether no call on one of them failed in the middle.
    pub fn are_unspent(&self) -> bool
        ensures yes { IsTrue result → Each HasUnspentCells self.now.lives.items }
        ensures no { IsFalse result → Each HasUnspentCells self.now.lives.items → ⊥ }
    {
        are_unspent(&self.lives)
    }
}
