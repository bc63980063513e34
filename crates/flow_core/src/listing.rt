//! The steps of lives, in order.

ghost use Rattle.std.specs.Prelude.{◌≡◌, ◌++◌, IfOk, OnOk};
ghost use Rattle.std.specs.List.{AllByRecursion as Each};
ghost use Rattle.flow_core.specs.Nets.{IsLifeIn, IsSound};
ghost use Rattle.flow_core.specs.Running.{ends_in, steps_of, steps_onward};

use crate::lives::Numbered;
use flow_life::{Life, Step};
use kap_base::NoMemory;
use node_core::Node;
use std::alloc::Global;

/// Adds the steps of lives whose cells are numbered from here on.
fn list_onward<N: Node>(
    lives: &[Numbered<Life<N>>],
    from: usize,
    to: &mut Vec<Step>,
) -> Result<(), NoMemory>
    ensures steps { OnOk result (to.new.items
        ≡ to.old.items ++ steps_onward from (ends_in lives.now)) }
    ensures lives { OnOk result (Each IsSound lives.now → Each (IsLifeIn N.Node) lives.now) }
{
    let Some((first, others)) = lives.split_first() else {
        return Ok(());
    };
    first.life.list_steps(from, to)?;
    let Some(next) = from.checked_add(first.life.cells()) else {
        return Err(NoMemory);
    };
    list_onward(others, next, to)
}

/// The steps of lives, by cell, of each cell its takes by input and then its puts by out.
pub(crate) fn list_steps<N: Node>(
    alloc: Global,
    lives: &[Numbered<Life<N>>],
) -> Result<Vec<Step>, NoMemory>
    ensures steps { IfOk result (λ steps. steps.items ≡ steps_of lives.now) }
    ensures lives { OnOk result (Each IsSound lives.now → Each (IsLifeIn N.Node) lives.now) }
{
    let mut steps = Vec::new(alloc);
    list_onward(lives, 0, &mut steps)?;
    Ok(steps)
}
