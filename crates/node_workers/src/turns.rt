//! The turns of one worker.

ghost use Rattle.std.specs.Prelude.{◌≡◌, false, true, OnErr, OnOk};
ghost use Rattle.std.specs.List.{AllZip};
ghost use Rattle.flow_cells.specs.Moved.{HasMoved};
ghost use Rattle.node_workers.specs.Workers.{HasStood};

use crate::{IDLE_LIMIT, MOVE_LIMIT, TURN_LIMIT};
use flow_cells::Cell;
use kap_base::NoMemory;
use kap_io::Gate;
use node_core::Node;
use std::alloc::Global;
use std::thread;

/// Where a worker stands.
#[derive(Clone, Copy, Debug, PartialEq, Eq)]
pub(crate) struct Worker {
    // Its number, from 0 on.
    pub(crate) number: u32,
    // The number of its next turn, from 0 on.
    pub(crate) turn: u64,
    // Whether its cells are those of a whole life, to which nobody else sends.
    pub(crate) whole: bool,
}

/// What came of a turn, or of a part of it.
#[derive(Clone, Copy, Debug, PartialEq, Eq)]
struct Had {
    // Whether something was put or taken.
    moved: bool,
    // Whether some cell may have more to put or to take, as it knows.
    left: bool,
}

impl Had {
    /// Both together.
    fn with(self, other: Had) -> Had {
        Had {
            moved: self.moved || other.moved,
            left: self.left || other.left,
        }
    }
}

impl Worker {
    /// Whether it ends behind a turn, which is the last of so many in a row that moved nothing. With a whole
    /// life it goes on only where its own moves may have made others possible.
    fn ends(&self, had: Had, idle: u32) -> bool {
        if self.whole {
            return !(had.moved && had.left);
        }
        idle >= IDLE_LIMIT
    }
}

/// A number of 32 bits, or the greatest one.
pub(crate) fn short(n: usize) -> u32 {
    u32::try_from(n).unwrap_or(u32::MAX)
}

/// Puts the first message that waits at each out on its edge, where that has room, and says whether it put
/// one.
fn put_each<N: Node>(cell: &mut Cell<N>) -> bool
    requires { cell.old.spent ≡ false }
    ensures { HasMoved cell.old cell.new }
{
    let mut moved = false;
    'putting: for out in 0..short(cell.outs()) {
        if cell.put(out) {
            moved = true;
        }
    }
    moved
}

/// Takes a message from each input that has one, while none waits to be sent, and says whether it took one.
fn take_each<N: Node>(alloc: Global, cell: &mut Cell<N>) -> Result<bool, NoMemory>
    requires { cell.old.spent ≡ false }
    ensures moved { OnOk result (HasMoved cell.old cell.new) }
    ensures spent { OnErr result (cell.new.spent ≡ true) }
{
    let mut moved = false;
    'taking: for input in 0..short(cell.inputs()) {
        if cell.take(alloc, input)? {
            moved = true;
        }
    }
    Ok(moved)
}

/// A cell's part of a turn: it takes and puts as long as it can. It looks at its inputs once more than
/// messages come, and then it knows whether it has more to do. After NoMemory it is spent, and then it has no
/// part.
fn move_cell<N: Node>(alloc: Global, cell: &mut Cell<N>) -> Result<Had, NoMemory>
    ensures { HasStood cell.old cell.new }
{
    let mut moved = false;
    if cell.is_spent() {
        return Ok(Had { moved, left: false });
    }
    'moving: for _ in 0..MOVE_LIMIT {
        let took = take_each(alloc, cell)?;
        if !took {
            if cell.is_quiet() {
                return Ok(Had { moved, left: false });
            }
        }
        let put = put_each(cell);
        if !took {
            if !put {
                return Ok(Had { moved, left: true });
            }
        }
        moved = true;
    }
    Ok(Had { moved, left: true })
}

/// One turn: each cell has its part once, in the order of their numbers, so that parents come first. Said is
/// what came of it, with what came of those before.
fn turn<N: Node>(alloc: Global, cells: &mut [Cell<N>], before: Had) -> Result<Had, NoMemory>
    ensures { AllZip HasStood cells.old cells.new }
{
    let Some((first, others)) = cells.split_first_mut() else {
        return Ok(before);
    };
    let had = move_cell(alloc, first)?;
    turn(alloc, others, before.with(had))
}

/// The turns of a worker on cells. It passes the gate before each. It ends after so many turns, or where one
/// leaves nothing to do, or when some in a row moved nothing, or where memory is wanted.
pub(crate) fn work<N: Node, G: Gate>(
    alloc: Global,
    cells: &mut [Cell<N>],
    worker: &mut Worker,
    gate: &G,
)
    ensures { AllZip HasStood cells.old cells.new }
{
    let mut idle: u32 = 0;
    'turning: for _ in 0..TURN_LIMIT {
        gate.pass(worker.number, worker.turn);
        worker.turn = worker.turn.saturating_add(1);
        let Ok(had) = turn(
            alloc,
            cells,
            Had {
                moved: false,
                left: false,
            },
        ) else {
            return;
        };
        idle = if had.moved { 0 } else { idle.saturating_add(1) };
        if worker.ends(had, idle) {
            return;
        }
        if !had.moved {
            thread::yield_now();
        }
    }
}
