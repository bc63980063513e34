ghost use Rattle.std.specs.Prelude.{◌≡◌, [], ◌∷◌, IfOk};
ghost use Rattle.node_core.specs.Meaning.{silence, a_drop, passed, passed_if};

use crate::few::Few;
use kap_base::{Body, NoMemory, Point, Shared, What};
use std::alloc::Global;

/// What a node says of one arrival: what it gives out, what it does, and how many inputs it drops and counts.
#[derive(Debug, Drop)]
pub struct Said {
    /// What it gives out, in order.
    pub bodies: Few<Body>,
    /// What it does beside, in order.
    pub deeds: Few<What>,
    /// How many inputs it drops and counts.
    pub drops: u64,
}

impl Said {
    /// Nothing.
    pub fn nothing(alloc: Global) -> Said
        ensures { result ≡ silence }
    {
        Said {
            bodies: Few::new(alloc),
            deeds: Few::new(alloc),
            drops: 0,
        }
    }

    /// An input that is dropped and counted.
    pub fn dropped(alloc: Global) -> Said
        ensures { result ≡ a_drop }
    {
        Said {
            bodies: Few::new(alloc),
            deeds: Few::new(alloc),
            drops: 1,
        }
    }

    /// Bodies alone.
    pub fn given(alloc: Global, bodies: Few<Body>) -> Said
        ensures { result ≡ record { bodies = bodies; deeds = []; drops = 0 } }
    {
        Said {
            bodies,
            deeds: Few::new(alloc),
            drops: 0,
        }
    }

    /// One body alone.
    pub fn of_body(alloc: Global, body: Body) -> Said
        ensures { result ≡ record { bodies = body ∷ []; deeds = []; drops = 0 } }
    {
        Said::given(alloc, Few::one(alloc, body))
    }
}

/// The point is given out.
pub fn pass(alloc: Global, point: Shared<Point>) -> Said
    ensures { result ≡ passed point }
{
    Said::of_body(alloc, Body::Point(point))
}

/// A point that no other owner has is given out.
pub fn pass_new(alloc: Global, point: Point) -> Result<Said, NoMemory>
    ensures { IfOk result (λ said. said ≡ passed point) }
{
    Ok(pass(alloc, Shared::new(alloc, point)?))
}

/// The point is given out where this is true; else nothing is said of it.
pub fn pass_if(alloc: Global, holds: bool, point: Shared<Point>) -> Said
    ensures { result ≡ passed_if holds point }
{
    if holds {
        pass(alloc, point)
    } else {
        Said::nothing(alloc)
    }
}
