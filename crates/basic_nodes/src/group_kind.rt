ghost use Rattle.basic_nodes.specs.GroupKinds.{count_in, group_goes_on, group_says, group_step};

use crate::selection::{Selection, feed_from, feed_where};
use crate::shift::feed_sample;
use kap_base::{NoMemory, Point, Shared};
use lambda_types::Lambda;
use node_core::{Rule, Said};
use std::alloc::Global;
use task_graph::Count;

/// What is done with a point by how many points of its group came before it (Kapacitor 1.6 node reference).
#[derive(Drop)]
pub enum GroupKind {
    /// `from`.
    From(Selection),
    /// `where`.
    Where(Lambda),
    /// `sample`.
    Sample(Count),
}

impl Rule for GroupKind {
    type Cell = u64;

    ghost ports = { λ k. 1 };

    ghost answer = { group_says };

    ghost kept = { count_in };

    ghost step = { group_step };

    ghost goes_on = { group_goes_on };

    fn first(&self, alloc: Global) -> u64 {
        let _ = alloc;
        0
    }

    fn feed(
        &mut self,
        alloc: Global,
        cell: &mut u64,
        port: u32,
        point: Shared<Point>,
    ) -> Result<Said, NoMemory> {
        let _ = port;
        match self {
            GroupKind::From(selection) => feed_from(alloc, selection, cell, point),
            GroupKind::Where(condition) => feed_where(alloc, condition, cell, point),
            GroupKind::Sample(n) => feed_sample(alloc, n, cell, point),
        }
    }
}
