//! Which record may follow.

ghost use Rattle.std.specs.Prelude.{◌≡◌, ◌==◌, ◌+◌, ◌&&◌, ◌∷◌, ◌++◌, [], IfOk, IsTrue, List, length, map, position};
ghost use Rattle.std.specs.List.{list_all};
ghost use Rattle.store_records.specs.Held.{are_next, goes_on, has_task, is_called, is_next, may_define};
ghost use Rattle.store_records.specs.Lines.{are_lines, is_of};
ghost use Rattle.topic_core.specs.Topics.{StandsFor, event_of};
ghost use Rattle.topic_core.specs.declared.transition.Transition.{Transition};

use crate::lines::are_of;
use crate::task::StoredTask;
use kap_base::{Level, NoMemory, Point, SCRIPT_LIMIT, TASK_LIMIT, Text, is_task_id, is_time};
use std::alloc::Global;
use topic_core::{Topics, Transition};

fn is_called(task: &StoredTask, id: &Text) -> bool
    ensures { result ≡ is_called id.now task.now }
{
    task.id == *id
}

/// Where the task of this id stands.
pub fn find_task(tasks: &[StoredTask], id: &Text) -> Option<usize>
    ensures { result ≡ position (is_called id.now) tasks.now }
{
    tasks.iter().position(|task| is_called(task, id))
}

/// Whether some task has this id: the task may be enabled, disabled and deleted.
pub fn has_task(tasks: &[StoredTask], id: &Text) -> bool
    ensures { result ≡ has_task id.now tasks.now }
{
    tasks.iter().any(|task| is_called(task, id))
}

/// Whether a task may be defined beside these: its id is free and valid, there are fewer than `TASK_LIMIT`,
/// and the script has at most `SCRIPT_LIMIT` bytes.
pub fn may_define(tasks: &[StoredTask], id: &Text, script: &Text) -> bool
    ensures { result ≡ may_define id.now script.now tasks.now }
{
    if !is_task_id(id.bytes()) {
        return false;
    }
    if has_task(tasks, id) {
        return false;
    }
    if tasks.len() >= TASK_LIMIT {
        return false;
    }
    script.bytes().len() <= SCRIPT_LIMIT
}

fn are_lines(db: &Text, rp: &Text) -> bool
    ensures { result ≡ are_lines (db.now, rp.now) }
{
    if !db.is_line() {
        return false;
    }
    rp.is_line()
}

/// Whether these points may be stored as a batch: the database and the policy hold no line feed, and each
/// point is of them and ungrouped.
pub fn is_batch(db: &Text, rp: &Text, points: &[Point]) -> bool
    ensures { result ≡ (are_lines (db.now, rp.now) && list_all (is_of db.now rp.now) points.now) }
{
    if !are_lines(db, rp) {
        return false;
    }
    are_of(db, rp, points)
}

/// Whether the number is the one behind `count`.
fn is_number_behind(number: u64, count: u64) -> bool
    ensures { result ≡ (number == count + 1) }
{
    match number.checked_sub(1) {
        Some(last) => last == count,
        None => false,
    }
}

/// Whether the transition goes on from `count` others, where this is the level of its topic and id.
fn goes_on(count: u64, level: Level, transition: &Transition) -> bool
    ensures { result ≡ goes_on count level transition.now }
{
    if !is_number_behind(transition.number, count) {
        return false;
    }
    if !transition.old_level.is_same(level) {
        return false;
    }
    if transition.old_level.is_same(transition.new_level) {
        return false;
    }
    is_time(transition.time)
}

/// Takes the next transition, behind `count` others, where it goes on from these, and tells whether it does.
fn take_transition(
    alloc: Global,
    topics: &mut Topics,
    count: u64,
    transition: &Transition,
) -> Result<bool, NoMemory>
    ensures next { (before : List Transition) → StandsFor (map event_of before) topics.old
        → count ≡ length before → IfOk result (λ next. next ≡ is_next before transition.now) }
    ensures kept { (before : List Transition) → StandsFor (map event_of before) topics.old
        → IfOk result (λ next. IsTrue next
        → StandsFor (map event_of before ++ event_of transition.now ∷ []) topics.new) }
{
    let level = topics.levels().level(&transition.topic, &transition.id);
    if !goes_on(count, level, transition) {
        return Ok(false);
    }
    topics.put(alloc, transition)?;
    Ok(true)
}

/// Whether these transitions may follow `count` others, of which `topics` are kept: their numbers go on, the
/// old level of each is that of its topic and id, its new level another one, and its time lies in the range
/// of times. Where they may, `topics` are kept of them too; else, and after `NoMemory`, of some of them.
pub fn take_transitions(
    alloc: Global,
    topics: &mut Topics,
    count: u64,
    transitions: &[Transition],
) -> Result<bool, NoMemory>
    ensures next { (before : List Transition) → StandsFor (map event_of before) topics.old
        → count ≡ length before
        → IfOk result (λ next. next ≡ are_next before transitions.now) }
    ensures kept { (before : List Transition) → StandsFor (map event_of before) topics.old
        → IfOk result (λ next. IsTrue next
        → StandsFor (map event_of (before ++ transitions.now)) topics.new) }
{
    let mut count = count;
    let mut rest = transitions;
    'taking: while let Some((transition, others)) = rest.split_first() {
        if !take_transition(alloc, topics, count, transition)? {
            return Ok(false);
        }
        let Some(more) = count.checked_add(1) else {
            return Err(NoMemory);
        };
        count = more;
        rest = others;
    }
    Ok(true)
}
