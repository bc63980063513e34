use crate::links::{answer_door, answer_link, answer_prefixes};
use crate::polled::{answer_polled, answer_turns};
use crate::replies::answer_reply;
use crate::requests::answer_request;
use crate::stores::answer_store;
use case_text::{Asked, LineFault};
use kap_base::Bytes;
use kap_io::MemDisk;
use std::alloc::Global;

/// What lines go on from: a disk.
#[derive(Drop)]
pub struct Stored {
    disk: MemDisk,
}

impl Asked for Stored {
    /// An empty disk.
    fn new(alloc: Global) -> Stored {
        Stored {
            disk: MemDisk::new(alloc, Vec::new(alloc)),
        }
    }

    fn answer(
        &mut self,
        alloc: Global,
        kind: &str,
        rest: &str,
        to: &mut Bytes,
    ) -> Result<(), LineFault> {
        match kind {
            "request" => answer_request(alloc, rest, to),
            "reply" => answer_reply(alloc, rest, to),
            "link" => answer_link(alloc, rest, to),
            "prefixes" => answer_prefixes(alloc, rest, to),
            "door" => answer_door(alloc, rest, to),
            "polled" => answer_polled(alloc, rest, to),
            "turns" => answer_turns(alloc, rest, to),
            "store" => answer_store(alloc, &mut self.disk, rest, to),
            _ => Err(LineFault::NoForm),
        }
    }
}
