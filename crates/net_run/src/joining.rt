//! Nets side by side become one.

ghost use Rattle.std.specs.Prelude.{◌≡◌, ℕ, ◌++◌, false, List, OnErr, OnOk};
ghost use Rattle.std.specs.List.{AllByRecursion as Each};
ghost use Rattle.kap_base.specs.Points.{PointValue};
ghost use Rattle.task_run.specs.Graphs.{Placed};
ghost use Rattle.flow_core.specs.Carried.{HasCarried};
ghost use Rattle.flow_core.specs.Nets.{IsSound};
ghost use Rattle.flow_core.specs.Rooms.{HasRoomIn};

use flow_core::{Net, Numbered};
use flow_life::Life;
use kap_base::NoMemory;
use node_core::Node;
use std::alloc::Global;

/// Puts lives behind those of a net.
fn add_lives<N: Node>(net: &mut Net<N>, lives: Vec<Numbered<Life<N>>>) -> Result<(), NoMemory>
    requires unspent { net.old.spent ≡ false }
    requires sound { Each IsSound lives.items }
    ensures lives { OnOk result (net.new.lives ≡ net.old.lives ++ lives.items) }
    ensures gathered { net.new.gathered ≡ net.old.gathered }
    ensures last { net.new.last ≡ net.old.last }
    ensures spent { net.new.spent ≡ false }
{
    'adding: for Numbered { number, life } in lives {
        net.add(number, life)?;
    }
    Ok(())
}

/// Puts the lives of another net behind those of this one. What their edges have carried for the same points
/// stays, and so does the room that they have. After NoMemory the net has some of the lives.
pub fn join_nets<N: Node>(alloc: Global, net: &mut Net<N>, other: Net<N>) -> Result<(), NoMemory>
    requires unspent { net.old.spent ≡ false }
    requires others { other.spent ≡ false }
    ensures lives { OnOk result (net.new.lives ≡ net.old.lives ++ other.lives) }
    ensures gathered { net.new.gathered ≡ net.old.gathered }
    ensures last { net.new.last ≡ net.old.last }
    ensures spent { net.new.spent ≡ false }
    ensures carried { OnOk result ((points : List PointValue) (xs ys : List (List (Placed N.Spec)))
        → HasCarried N.Node xs points net.old → HasCarried N.Node ys points other
        → HasCarried N.Node (xs ++ ys) points net.new) }
    ensures room { OnOk result ((capacity : ℕ) → Each (HasRoomIn capacity) net.old.lives
        → Each (HasRoomIn capacity) other.lives → Each (HasRoomIn capacity) net.new.lives) }
{
    let mut other = other;
    let cells = other.take_cells(alloc);
    add_lives(net, cells.lives)?;
    Ok(())
}
