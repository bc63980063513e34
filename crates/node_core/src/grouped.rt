ghost use Rattle.std.specs.Prelude.{[]};
ghost use Rattle.node_core.specs.Groups.{in_groups, is_point};
ghost use Rattle.node_core.specs.Machine.{group_step, no_groups, KeptCells};
ghost use Rattle.node_core.specs.GroupLaws.{groups_begin, groups_go_on, groups_say, groups_stay};

use crate::kind::Kind;
use crate::rule::Rule;
use crate::said::Said;
use crate::table::{Table, feed_cell};
use kap_base::{Body, NoMemory};
use std::alloc::Global;

/// The kind that does in each group what the rule says. A batch gives nothing and changes nothing.
#[derive(Drop)]
pub struct Grouped<R> {
    pub rule: R,
}

impl<R: Rule + Drop> Kind for Grouped<R> {
    type State = Table<R::Cell>;

    ghost ports = { λ k. R.ports k.rule };

    ghost takes = { λ k. is_point };

    ghost saying = { λ k. in_groups (R.answer k.rule) };

    ghost begin = { λ k. no_groups };

    ghost step = { λ k. group_step (R.kept k.rule []) (R.step k.rule) };

    ghost kept = { λ k. KeptCells (R.kept k.rule) };

    ghost begins = { λ k. groups_begin (R.step k.rule) (R.kept k.rule) (R.answer k.rule)
        (R.goes_on k.rule) };

    ghost goes_on = { λ k. groups_go_on (R.step k.rule) (R.kept k.rule) (R.answer k.rule)
        (R.goes_on k.rule) };

    ghost says = { λ k. groups_say (R.step k.rule) (R.kept k.rule) (R.answer k.rule)
        (R.goes_on k.rule) };

    ghost stays = { λ k. groups_stay (R.kept k.rule []) (R.step k.rule) };

    fn first(&self, alloc: Global) -> Table<R::Cell> {
        Table::new(alloc)
    }

    fn feed(
        &mut self,
        alloc: Global,
        state: &mut Table<R::Cell>,
        port: u32,
        body: Body,
    ) -> Result<Said, NoMemory> {
        let Body::Point(point) = body else {
            return Ok(Said::nothing(alloc));
        };
        feed_cell(&mut self.rule, alloc, state, port, point)
    }
}
