//! The messages of a load.

ghost use Rattle.std.specs.Prelude.{◌≡◌, ◌≤◌, ◌∷◌, ◌++◌, length, IfOk, OnOk};
ghost use Rattle.kap_base.specs.declared.items.Msg.TheVariants as messages;
ghost use Rattle.task_run.specs.PointLaws.{stamped_point};
ghost use Rattle.flow_core.specs.Messages.{barrier_at, load_messages, marks_behind};

use kap_base::{Body, Duplicate, Item, Msg, NoMemory, Point, Shared, Stamp};
use std::alloc::Global;

/// Adds a barrier, where the first mark is this stamp.
fn push_mark(msgs: &mut Vec<Msg>, stamp: u64, marks: &[Stamp]) -> Result<(), NoMemory>
    ensures { OnOk result (msgs.new.items ≡ msgs.old.items ++ barrier_at stamp marks.now) }
{
    let Some((mark, _)) = marks.split_first() else {
        return Ok(());
    };
    if mark.0 == stamp {
        msgs.push(Msg::Barrier(*mark))?;
    }
    Ok(())
}

/// Adds a point with its stamp, and behind it a barrier, where the first mark is this stamp.
fn push_point(
    alloc: Global,
    msgs: &mut Vec<Msg>,
    point: &Shared<Point>,
    stamp: u64,
    marks: &[Stamp],
) -> Result<(), NoMemory>
    ensures { OnOk result (msgs.new.items ≡ msgs.old.items
        ++ messages.Item (stamped_point stamp point.now) ∷ barrier_at stamp marks.now) }
{
    msgs.push(Msg::Item(Item {
        stamp: Stamp(stamp),
        body: Body::Point(point.copy(alloc)?),
    }))?;
    push_mark(msgs, stamp, marks)
}

/// The marks behind this stamp, where the first one is it; else all.
fn pass_mark(marks: &[Stamp], stamp: u64) -> &[Stamp]
    ensures { result.now ≡ marks_behind stamp marks.now }
{
    let Some((mark, later)) = marks.split_first() else {
        return marks;
    };
    if mark.0 == stamp { later } else { marks }
}

/// The messages of a load: the points with the stamps that end at `upto`, a barrier behind each stamp of
/// `marks`, which rise, and one behind the last point.
pub fn messages(
    alloc: Global,
    points: &[Shared<Point>],
    upto: Stamp,
    marks: &[Stamp],
) -> Result<Vec<Msg>, NoMemory>
    requires { length points.now ≤ upto.0 }
    ensures { IfOk result (λ msgs. msgs.items ≡ load_messages points.now upto marks.now) }
{
    let mut msgs = Vec::new(alloc);
    let mut stamp = upto.0 - points.len() as u64;
    let mut rest = marks;
    'stamping: for point in points {
        stamp += 1;
        push_point(alloc, &mut msgs, point, stamp, rest)?;
        rest = pass_mark(rest, stamp);
    }
    msgs.push(Msg::Barrier(upto))?;
    Ok(msgs)
}
