//! `log`.

ghost use Rattle.std.specs.Prelude.{◌≡◌, IfOk};
ghost use Rattle.basic_nodes.specs.Logs.{log_says};

use kap_base::{Body, Duplicate, NoMemory, Point, Shared, What};
use node_core::{Few, Said};
use std::alloc::Global;

/// What `log` says of a point.
pub(crate) fn feed_log(alloc: Global, point: Shared<Point>) -> Result<Said, NoMemory>
    ensures { IfOk result (λ said. said ≡ log_says point) }
{
    let logged = point.copy(alloc)?;
    Ok(Said {
        bodies: Few::one(alloc, Body::Point(point)),
        deeds: Few::one(alloc, What::Line(logged)),
        drops: 0,
    })
}
