//! The states of a net's nodes are captured.

ghost use Rattle.std.specs.Prelude.{◌≡◌, ◌<◌, ◌≤◌, ◌^◌, IfOk, IfSome, MatchOption, OnOk, false, length};
ghost use Rattle.std.specs.List.{AllByRecursion as Each};
ghost use Rattle.flow_cells.specs.Kept.{HasKept};
ghost use Rattle.flow_life.specs.Wired.{IsUnspent};
ghost use Rattle.flow_core.specs.Nets.{IsLifeIn, IsSound};
ghost use Rattle.barrier_snapshot.specs.Barriers.{HavePassed, IsCaptureAt, cells_in};
ghost use Rattle.barrier_snapshot.specs.Capturing.{HasKeptAll, PutsCells};

use flow_cells::Cell;
use flow_core::{Net, Numbered};
use flow_life::Life;
use kap_base::{Bytes, NoMemory, Stamp};
use node_core::Node;
use state_code::{put_bytes, put_u32};
use std::alloc::Global;

/// Appends the state of each cell at its last barrier, as a byte string, which is spelled in `room`
/// first. After NoMemory some of them may stand at the end of `to`.
fn put_cells<N: Node>(cells: &[Cell<N>], room: &mut Bytes, to: &mut Bytes) -> Result<(), NoMemory>
    requires unspent { Each IsUnspent cells.now }
    requires kept { Each HasKept cells.now }
    ensures { OnOk result (PutsCells N.Node cells.now to.old to.new) }
{
    if let Some((first, others)) = cells.split_first() {
        room.clear();
        first.put_saved(room)?;
        put_bytes(to, room.as_slice())?;
        put_cells(others, room, to)?;
    }
    Ok(())
}

/// Appends that of each cell of lives. After NoMemory some of them may stand at the end of `to`.
fn put_lives<N: Node>(
    lives: &[Numbered<Life<N>>],
    room: &mut Bytes,
    to: &mut Bytes,
) -> Result<(), NoMemory>
    requires lives { Each (IsLifeIn N.Node) lives.now }
    requires kept { Each HasKeptAll lives.now }
    ensures { OnOk result (PutsCells N.Node (cells_in lives.now) to.old to.new) }
{
    if let Some((first, others)) = lives.split_first() {
        put_cells(first.life.all_cells(), room, to)?;
        put_lives(others, room, to)?;
    }
    Ok(())
}

/// How many cells lives have, of which no call failed. `None` comes exactly where they are 2^32 or more.
fn count<N: Node>(lives: &[Numbered<Life<N>>]) -> Option<u32>
    requires { Each IsSound lives.now }
    ensures count { MatchOption result (2 ^ 32 ≤ length (cells_in lives.now))
        (λ count. count ≡ length (cells_in lives.now)) }
    ensures below { IfSome result (λ count. count < 2 ^ 32) }
    ensures lives { IfSome result (λ count. Each (IsLifeIn N.Node) lives.now) }
{
    let Some((first, others)) = lives.split_first() else {
        return Some(0);
    };
    let Ok(own) = u32::try_from(first.life.cells()) else {
        return None;
    };
    let Some(behind) = count(others) else {
        return None;
    };
    own.checked_add(behind)
}

/// The states in which the nodes were at a barrier, life by life and node by node, spelled now: a cell that
/// nothing was fed to since is still in its state there, another one has kept it. Each cell with a parent has
/// passed the barrier, and none behind it. A stream's cell has passed it too; where it has passed a later
/// one, its node has one state alone, whatever it is fed. The net needn't be at rest.
pub fn capture<N: Node>(alloc: Global, net: &Net<N>, upto: Stamp) -> Result<Bytes, NoMemory>
    requires unspent { net.now.spent ≡ false }
    requires passed { HavePassed N.Node upto (cells_in net.now.lives) }
    ensures capture { IfOk result (IsCaptureAt N.Node upto (cells_in net.now.lives)) }
    ensures lives { OnOk result (Each (IsLifeIn N.Node) net.now.lives) }
{
    let _ = upto;
    let lives = net.lives();
    let Some(number) = count(lives) else {
        return Err(NoMemory);
    };
    let mut bytes = Bytes::new(alloc);
    put_u32(&mut bytes, number)?;
    let mut room = Bytes::new(alloc);
    put_lives(lives, &mut room, &mut bytes)?;
    Ok(bytes)
}
