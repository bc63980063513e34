//! The fronts of buffers, and what is taken there.

ghost use Rattle.std.specs.Prelude.{◌≡◌, ◌<◌, ◌≤◌, length};
ghost use Rattle.merge_node.specs.Buffers.{front, item_front, lower, without_front, without_fronts};
ghost use Rattle.merge_node.specs.Looking.{looked};

use crate::PARENT_LIMIT;
use crate::queue::Queue;
use kap_base::{Msg, Stamp};

/// A front that is an item.
#[derive(Clone, Copy)]
pub(crate) struct Front {
    /// The number of its parent.
    pub(crate) parent: u32,
    /// Its stamp.
    pub(crate) stamp: Stamp,
}

/// A front, where it is an item.
fn item_front(parent: u32, msg: &Msg) -> Option<Front>
    ensures { result ≡ item_front parent msg.now }
{
    match msg {
        Msg::Item(item) => Some(Front {
            parent,
            stamp: item.stamp,
        }),
        Msg::Barrier(_) => None,
    }
}

/// The one with the lower stamp, and the first where they are equal.
fn lower(best: Option<Front>, other: Option<Front>) -> Option<Front>
    ensures { result ≡ lower best other }
{
    let Some(front) = best else {
        return other;
    };
    let Some(rival) = other else {
        return Some(front);
    };
    if rival.stamp.0 < front.stamp.0 {
        Some(rival)
    } else {
        Some(front)
    }
}

/// The item least by stamp and parent among the fronts, if some front is an item; `None` where a parent has
/// nothing buffered.
pub(crate) fn least_front(buffers: &[Queue]) -> Option<Option<Front>>
    requires { length buffers.now ≤ PARENT_LIMIT }
    ensures { result ≡ looked buffers.now }
{
    let mut rest = buffers;
    let mut parent: u32 = 0;
    let mut best = None;
    'looking: while let Some((first, others)) = rest.split_first() {
        let Some(msg) = first.first() else {
            return None;
        };
        best = lower(best, item_front(parent, msg));
        parent += 1;
        rest = others;
    }
    Some(best)
}

/// Takes the front of a parent.
pub(crate) fn pop_at(buffers: &mut [Queue], parent: u32) -> Option<Msg>
    requires { parent < length buffers.old }
    ensures front { result ≡ front parent buffers.old }
    ensures rest { buffers.new ≡ without_front parent buffers.old }
{
    buffers[parent as usize].pop()
}

/// Takes the front of each parent, and gives that of the first.
pub(crate) fn pop_all(buffers: &mut [Queue]) -> Option<Msg>
    ensures front { result ≡ front 0 buffers.old }
    ensures rest { buffers.new ≡ without_fronts buffers.old }
{
    let (first, others) = buffers.split_first_mut()?;
    drop_fronts(others);
    first.pop()
}

/// Takes the front of each parent.
fn drop_fronts(buffers: &mut [Queue])
    ensures { buffers.new ≡ without_fronts buffers.old }
{
    'dropping: for buffer in buffers.iter_mut() {
        let _ = buffer.pop();
    }
}
