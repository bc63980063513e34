//! The lines of what nodes dropped.

ghost use Rattle.std.specs.Prelude.{◌≡◌, ◌++◌, OnOk};
ghost use Rattle.effect_text.specs.Lines.{dropped_line, dropped_lines, dropped_text};

use crate::names::TaskNames;
use itoa::Buffer;
use kap_base::{Bytes, ItemList, NoMemory, Text};

fn put_dropped_line(id: &Text, node: &Text, count: u64, text: &mut Bytes) -> Result<(), NoMemory>
    ensures { OnOk result (text.new ≡ text.old ++ dropped_line id.now node.now count) }
{
    if count == 0 {
        return Ok(());
    }
    let mut number = Buffer::new();
    text.append(b"dropped ")?;
    text.append(id.bytes())?;
    text.push(b' ')?;
    text.append(node.bytes())?;
    text.push(b' ')?;
    text.append(number.format(count).as_bytes())?;
    text.push(b'\n')
}

/// Adds the lines of what the nodes of a task dropped.
#[tactic(auto, unfolding(crate::specs::Lines::dropped_lines))]
fn put_lines(task: &TaskNames, counts: &[u64], text: &mut Bytes) -> Result<(), NoMemory>
    ensures { OnOk result
        (text.new ≡ text.old ++ dropped_lines task.now.id task.now.nodes counts.now) }
{
    let mut rest = counts;
    'putting: for node in task.nodes.as_slice() {
        let Some((count, others)) = rest.split_first() else {
            return Ok(());
        };
        put_dropped_line(&task.id, node, *count, text)?;
        rest = others;
    }
    Ok(())
}

/// Adds a line `dropped ID NODE COUNT` for each node of each task that dropped points, in the order of the
/// tasks and of the nodes' numbers. `counts` has for each task how many each of its nodes dropped. After
/// `NoMemory` the text is any.
#[tactic(auto, unfolding(crate::specs::Lines::dropped_text))]
pub fn put_dropped(
    tasks: &[TaskNames],
    counts: &[ItemList<u64>],
    text: &mut Bytes,
) -> Result<(), NoMemory>
    ensures { OnOk result (text.new ≡ text.old ++ dropped_text tasks.now counts.now) }
{
    let mut rest = counts;
    'putting: for task in tasks {
        let Some((first, others)) = rest.split_first() else {
            return Ok(());
        };
        put_lines(task, first.as_slice(), text)?;
        rest = others;
    }
    Ok(())
}
