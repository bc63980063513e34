//! What a select does with a batch.

ghost use Rattle.select_nodes.specs.Results.{is_batch, select_says, silent};

use crate::results::say_of_batch;
use kap_base::{Body, NoMemory};
use node_core::{Plain, Said};
use std::alloc::Global;
use task_graph::SelectSpec;

/// What a select does with each batch by itself. A point gives nothing.
#[derive(Debug, Drop)]
pub struct Selection {
    /// What it chooses.
    pub spec: SelectSpec,
}

impl Plain for Selection {
    ghost ports = { λ s. 1 };

    ghost takes = { λ s. is_batch };

    ghost says = { λ s. select_says s.spec };

    ghost silent = { λ s. silent s.spec };

    fn feed(&mut self, alloc: Global, port: u32, body: Body) -> Result<Said, NoMemory> {
        let _ = port;
        match body {
            Body::Batch(batch) => say_of_batch(alloc, &self.spec, batch),
            Body::Point(_) => Ok(Said::nothing(alloc)),
        }
    }
}
