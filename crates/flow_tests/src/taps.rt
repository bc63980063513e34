//! A node of the tests that gives points on, and one that logs them.

ghost use Rattle.std.specs.Prelude.{◌≡◌, ◌<◌, ◌∷◌, IfOk, [], false, map, true};
ghost use Rattle.kap_base.specs.declared.items.Body.TheVariants as bodies;
ghost use Rattle.node_core.specs.Groups.{is_point};
ghost use Rattle.node_core.specs.Numbering.{running_first};
ghost use Rattle.flow_core.specs.Making.{HasFewParents};
ghost use Rattle.task_run.specs.Plans.{AreFirstNodes};
ghost use Rattle.flow_tests.specs.Taps.{seat_of, tap_of, tap_says, tap_silent};
ghost use Rattle.barrier_snapshot.specs.Steady.{HasSteadyStream};

use kap_base::{Body, Duplicate, ItemList, NoMemory, Point, Shared, What};
use node_core::{Alone, Few, Node, Numbered, Plain, Said, Seat, pass};
use std::alloc::Global;
use task_run::{Ids, LifePlan};

/// It gives each point on. Where it isn't quiet, it logs it, and counts as many drops as the number of
/// the port.
#[derive(Drop)]
pub struct Tap {
    /// How many parents it may have.
    pub ports: u32,
    /// Whether it is quiet.
    pub quiet: bool,
}

/// The node of a tap.
pub type TapNode = Numbered<Alone<Tap>>;

/// What a tap says of a point.
fn feed_tap(alloc: Global, quiet: bool, port: u32, point: Shared<Point>) -> Result<Said, NoMemory>
    ensures { IfOk result (λ said. said ≡ tap_of quiet port point) }
{
    if quiet {
        return Ok(pass(alloc, point));
    }
    let logged = point.copy(alloc)?;
    Ok(Said {
        bodies: Few::one(alloc, Body::Point(point)),
        deeds: Few::one(alloc, What::Line(logged)),
        drops: port as u64,
    })
}

impl Plain for Tap {
    ghost ports = { λ r. r.ports };

    ghost takes = { λ r. is_point };

    ghost says = { λ r. tap_says r.quiet };

    ghost silent = { λ r. tap_silent r.quiet };

    fn feed(&mut self, alloc: Global, port: u32, body: Body) -> Result<Said, NoMemory> {
        match body {
            Body::Point(point) => feed_tap(alloc, self.quiet, port, point),
            Body::Batch(_) => Ok(Said::nothing(alloc)),
        }
    }
}

/// The node of a tap with so many ports, with a number in life 3.
fn tap_node(alloc: Global, node: u32, ports: u32, quiet: bool) -> TapNode
    ensures life { result.seat.life ≡ 3 }
    ensures node { result.seat.node ≡ node }
    ensures ports { result.seat.kind.plain.ports ≡ ports }
    ensures quiet { result.seat.kind.plain.quiet ≡ quiet }
    ensures first { result.running ≡ running_first tt }
{
    let kind = Alone {
        plain: Tap { ports, quiet },
    };
    Numbered::new(
        alloc,
        Seat {
            life: 3,
            node,
            kind,
        },
    )
}

/// The plan of a life with a quiet tap that feeds both ports of another one.
pub fn plan_of_taps(alloc: Global) -> Result<LifePlan<TapNode>, NoMemory>
    ensures few { IfOk result HasFewParents }
    ensures steady { IfOk result (HasSteadyStream ⟦<TapNode as Node>⟧) }
    ensures first { IfOk result (λ plan. AreFirstNodes ⟦<TapNode as Node>⟧.spec
        ⟦<TapNode as Node>⟧.state ⟦<TapNode as Node>⟧.first plan.nodes) }
    ensures life { IfOk result (λ plan. plan.life ≡ 3) }
    ensures specs { IfOk result (λ plan. map ⟦<TapNode as Node>⟧.spec plan.nodes
        ≡ seat_of 3 0 (record { plain = record { ports = 1; quiet = true } })
        ∷ seat_of 3 1 (record { plain = record { ports = 2; quiet = false } }) ∷ []) }
    ensures parents { IfOk result (λ plan. plan.parents ≡ [] ∷ (0 ∷ 0 ∷ []) ∷ []) }
{
    let first = tap_node(alloc, 0, 1, true);
    let second = tap_node(alloc, 1, 2, false);
    let nodes = Vec::from_array(alloc, [first, second])?;
    let ids = Vec::from_array(alloc, [0u32, 0])?;
    let parents = Vec::from_array(alloc, [Ids::new(alloc), Ids::from_items(ids)])?;
    Ok(LifePlan {
        life: 3,
        nodes: ItemList::from_items(nodes),
        parents: ItemList::from_items(parents),
    })
}
