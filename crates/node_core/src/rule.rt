ghost use Rattle.std.specs.Prelude.{◌≡◌, ◌<◌, ℕ, [], ◌∷◌, ◌++◌, List, IfOk, OnOk};
ghost use Rattle.kap_base.specs.Points.{PointValue};
ghost use Rattle.node_core.specs.Groups.{Came, GroupAnswer};
ghost use Rattle.node_core.specs.Meaning.{Turn};

use crate::said::Said;
use kap_base::{NoMemory, Point, Shared};
use state_code::Spelled;
use std::alloc::Global;

/// What a node does in each group by itself. It owes one equation, `goes_on`, and the spelling of what it
/// keeps of a group.
pub trait Rule {
    /// What is kept of a group.
    type Cell: Spelled + Drop;

    /// The number of ports.
    ghost ports: { Self → ℕ };

    /// What is said of a point, by the points of its group before it, each with its port.
    ghost answer: { Self → GroupAnswer };

    /// What is kept of a group with these points.
    ghost kept: { Self → List Came → Self.Cell };

    /// What a point makes of what is kept of its group, and what is said of it.
    ghost step: { Self → Self.Cell → ℕ → PointValue → Turn Self.Cell };

    /// What is kept of a group before its first point.
    fn first(&self, alloc: Global) -> Self::Cell
        ensures { result ≡ kept self.now [] };

    /// Takes a point that came at a port. The rule stays: `&mut` is for what an expression keeps ready for
    /// its next use. After NoMemory the cell is any.
    fn feed(
        &mut self,
        alloc: Global,
        cell: &mut Self::Cell,
        port: u32,
        point: Shared<Point>,
    ) -> Result<Said, NoMemory>
        requires { port < ports self.old }
        ensures rule { self.new ≡ self.old }
        ensures cell { OnOk result (cell.new ≡ (step self.old cell.old port point).state) }
        ensures said { IfOk result (λ said. said ≡ (step self.old cell.old port point).said) };

    /// What is kept of points, and of one more.
    ghost goes_on: { (r : Self) (before : List Came) (port : ℕ) (p : PointValue)
        → step r (kept r before) port p
        ≡ record { state = kept r (before ++ (port, p) ∷ []); said = answer r before port p } };
}
