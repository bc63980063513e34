//! What is kept of a group.

ghost use Rattle.state_code.specs.Laws.{option_spelled};
ghost use Rattle.state_code.specs.Spelling.{FitsOption, read_option, spell_option};
ghost use Rattle.join_node.specs.States.{FitsKept, kept_spelled, read_kept, spell_kept};

use crate::queues::Queue;
use kap_base::{Bytes, ItemList, NoMemory, is_time};
use state_code::{CodeFault, Cursor, Spelled, put_items};
use std::alloc::Global;
use std::marker::Model;

/// What is kept of a group from its first point with a rounded time in range on: the greatest rounded time,
/// and of each parent the points with it that wait for those of others.
#[derive(Drop)]
pub struct JoinGroup {
    pub(crate) time: i64,
    pub(crate) queues: Vec<Queue>,
}

impl Model for JoinGroup {
    ghost use Rattle.std.specs.Coded.{codes};
    ghost use Rattle.std.specs.Prelude.{IsTrue};
    ghost use Rattle.kap_base.specs.Maps.{key_map_code};
    ghost use Rattle.kap_base.specs.Points.{is_time};
    ghost use Rattle.join_node.specs.Queues.{JoinKept};

    ghost Value = { JoinKept };

    ghost coded = { Prim.hlevel (codes, key_map_code) };

    ghost view = { λ g. record { time = g.time; queues = g.queues.items } };

    ghost invariant = { λ g. IsTrue (is_time g.time) };
}

/// What is kept of a group: nothing before its first point with a rounded time in range.
#[derive(Drop)]
pub struct JoinCell {
    pub(crate) group: Option<JoinGroup>,
}

impl Model for JoinCell {
    ghost use Rattle.std.specs.Coded.{codes};
    ghost use Rattle.std.specs.Prelude.{Option};
    ghost use Rattle.kap_base.specs.Maps.{key_map_code};
    ghost use Rattle.join_node.specs.Queues.{JoinKept};

    ghost Value = { Option JoinKept };

    ghost coded = { Prim.hlevel (codes, key_map_code) };

    ghost view = { λ c. c.group };
}

/// The greatest rounded time, and the points that wait, parent by parent.
impl Spelled for JoinGroup {
    ghost fits = { FitsKept };

    ghost spell = { spell_kept };

    ghost read = { read_kept };

    ghost spelled = { kept_spelled };

    fn append_spelling(&self, to: &mut Bytes) -> Result<(), NoMemory> {
        self.time.append_spelling(to)?;
        put_items(&self.queues, to)
    }

    fn read_spelling(alloc: Global, from: &mut Cursor) -> Result<JoinGroup, CodeFault> {
        let time = <i64 as Spelled>::read_spelling(alloc, from)?;
        let queues = <ItemList<Queue> as Spelled>::read_spelling(alloc, from)?.into_items();
        if !is_time(time) {
            return Err(CodeFault::At(from.offset()));
        }
        Ok(JoinGroup { time, queues })
    }
}

/// A byte 1 and what is kept, or a byte 0 where there was no point.
impl Spelled for JoinCell {
    ghost fits = { FitsOption FitsKept };

    ghost spell = { spell_option spell_kept };

    ghost read = { read_option read_kept };

    ghost spelled = { option_spelled kept_spelled };

    fn append_spelling(&self, to: &mut Bytes) -> Result<(), NoMemory> {
        self.group.append_spelling(to)
    }

    fn read_spelling(alloc: Global, from: &mut Cursor) -> Result<JoinCell, CodeFault> {
        let group = <Option<JoinGroup> as Spelled>::read_spelling(alloc, from)?;
        Ok(JoinCell { group })
    }
}
