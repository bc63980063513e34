//! The two ends of an edge.

ghost use Rattle.std.specs.Prelude.{◌≤◌, length};
ghost use Rattle.rtrb.specs.Ring.{received as popped, sent as pushed};

use kap_base::Msg;
use rtrb::{Consumer, Producer};
use std::snapshot::Snapshot;

/// The end of an edge into which messages are put. It may go to another thread.
#[derive(Drop)]
pub struct Tail {
    pub(crate) producer: Producer<Msg>,
    // What it was when the last load began.
    pub(crate) base: Snapshot<Producer<Msg>>,
    ghost grown: { length (pushed base.value) ≤ length (pushed producer) },
}

/// The end of an edge out of which messages are taken. It may go to another thread.
#[derive(Drop)]
pub struct Head {
    pub(crate) consumer: Consumer<Msg>,
    // What it was when the last load began.
    pub(crate) base: Snapshot<Consumer<Msg>>,
    ghost grown: { length (popped base.value) ≤ length (popped consumer) },
}
