ghost use Rattle.std.specs.Prelude.{◌≡◌, IfOk};
ghost use Rattle.node_core.specs.Groups.{is_point};
ghost use Rattle.basic_nodes.specs.PointKinds.{point_says, point_silent, says_of};

use crate::defaults::feed_default;
use crate::deletions::{Deletion, feed_delete};
use crate::dimensions::{Regrouping, feed_group_by};
use crate::log::feed_log;
use crate::shift::feed_shift;
use crate::stream::feed_stream;
use kap_base::{Body, Dbrps, ItemList, NoMemory, Point, Shared};
use node_core::{Plain, Said};
use std::alloc::Global;
use task_graph::DefaultSetting;

/// What is done with each point by itself (Kapacitor 1.6 node reference).
#[derive(Drop)]
pub enum PointKind {
    /// The points of a task's databases and policies; all where there are none.
    Stream(Dbrps),
    /// `groupBy`.
    GroupBy(Regrouping),
    /// `log`.
    Log,
    /// `default`, with its properties in order.
    Default(ItemList<DefaultSetting>),
    /// `delete`.
    Delete(Deletion),
    /// `shift`, in nanoseconds.
    Shift(i64),
}

impl PointKind {
    /// What is said of a point.
    #[inline(always)]
    fn feed_point(&self, alloc: Global, point: Shared<Point>) -> Result<Said, NoMemory>
        ensures { IfOk result (λ said. said ≡ says_of self.now point) }
    {
        match self {
            PointKind::Stream(dbrps) => Ok(feed_stream(alloc, dbrps, point)),
            PointKind::GroupBy(regrouping) => feed_group_by(alloc, regrouping, point),
            PointKind::Log => feed_log(alloc, point),
            PointKind::Default(settings) => feed_default(alloc, settings.as_slice(), point),
            PointKind::Delete(deletion) => feed_delete(alloc, deletion, point.into_value(alloc)?),
            PointKind::Shift(by) => feed_shift(alloc, *by, point),
        }
    }
}

impl Plain for PointKind {
    ghost ports = { λ k. 1 };

    ghost takes = { λ k. is_point };

    ghost says = { point_says };

    ghost silent = { point_silent };

    fn feed(&mut self, alloc: Global, port: u32, body: Body) -> Result<Said, NoMemory> {
        let _ = port;
        match body {
            Body::Point(point) => self.feed_point(alloc, point),
            Body::Batch(_) => Ok(Said::nothing(alloc)),
        }
    }
}
