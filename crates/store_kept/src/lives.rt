//! The lives of a store, as a record changes them.

ghost use Rattle.std.specs.Prelude.{◌≡◌, ◌+◌, ◌++◌, ◌<◌, IfOk, if◌then◌else◌, vec_capacity, vec_len};
ghost use Rattle.std.specs.Option.{option_to_list};
ghost use Rattle.store_records.specs.Held.{begun, end_life, ended, is_enabled, is_open, is_open_of, life_of, open_from, snap_in, task_of};
ghost use Rattle.store_kept.specs.Lives.{HasSameRoom, IsLastOpen};

use crate::tasks::is_enabled;
use kap_base::{Duplicate, NoMemory, Text};
use std::alloc::Global;
use store_records::{Life, LifeNumbers, Rec, Snapshot, StoredTask, find_task};

fn is_open(life: &Life) -> bool
    ensures { result ≡ is_open life.now }
{
    life.last.is_none()
}

/// Whether it is an open life of the task of this id.
fn is_open_of(id: &Text, life: &Life) -> bool
    ensures { result ≡ is_open_of id.now life.now }
{
    if life.task != *id {
        return false;
    }
    is_open(life)
}

/// Where the last of the task's lives stands that is open. It goes from the end, where a life that ends
/// mostly stands.
fn last_open(lives: &[Life], id: &Text) -> Option<usize>
    ensures { IsLastOpen id.now lives.now result }
{
    let mut behind = lives.len();
    'looking: while behind > 0 {
        let at = behind - 1;
        if is_open_of(id, &lives[at]) {
            return Some(at);
        }
        behind = at;
    }
    None
}

fn end_life(lives: &mut Vec<Life>, id: &Text, last: u64)
    ensures items { lives.new.items ≡ end_life id.now last lives.old.items }
    ensures room { HasSameRoom lives.old lives.new }
{
    match last_open(lives, id) {
        Some(at) => lives[at].last = Some(last),
        None => {}
    }
}

fn end_if_enabled(lives: &mut Vec<Life>, tasks: &[StoredTask], id: &Text, last: u64)
    ensures items { lives.new.items ≡ (if is_enabled id.now tasks.now
        then end_life id.now last lives.old.items else lives.old.items) }
    ensures room { HasSameRoom lives.old lives.new }
{
    if is_enabled(tasks, id) {
        end_life(lives, id, last);
    }
}

/// Ends the life of the task that the record disables or deletes, behind so many points.
fn end_lives(lives: &mut Vec<Life>, tasks: &[StoredTask], rec: &Rec, last: u64)
    ensures items { lives.new.items ≡ ended last rec.now tasks.now lives.old.items }
    ensures room { HasSameRoom lives.old lives.new }
{
    match rec {
        Rec::Disable { id } => end_if_enabled(lives, tasks, id, last),
        Rec::Delete { id } => end_if_enabled(lives, tasks, id, last),
        _ => {}
    }
}

fn put_life(lives: &mut Vec<Life>, life: Option<Life>)
    requires { vec_len lives.old < vec_capacity lives.old }
    ensures { lives.new.items ≡ lives.old.items ++ option_to_list life }
{
    if let Some(life) = life {
        let _ = lives.push(life);
    }
}

/// A life that begins behind so many points, of a task with this id and script.
fn new_life(
    alloc: Global,
    points: u64,
    id: &Text,
    script: &Text,
    define_at: u64,
) -> Result<Life, NoMemory>
    ensures { IfOk result (λ life. life ≡ record {
      task = id.now;
      script = script.now;
      first = points + 1;
      last = None;
      define_at = define_at;
    }) }
{
    let Some(first) = points.checked_add(1) else {
        return Err(NoMemory);
    };
    Ok(Life {
        task: id.copy(alloc)?,
        script: script.copy(alloc)?,
        first,
        last: None,
        define_at,
    })
}

/// The life that the task's enabling begins behind so many points, unless it is enabled.
fn life_of(alloc: Global, points: u64, task: &StoredTask) -> Result<Option<Life>, NoMemory>
    ensures { IfOk result (λ life. option_to_list life ≡ life_of points (Some task.now)) }
{
    if task.enabled {
        return Ok(None);
    }
    let life = new_life(alloc, points, &task.id, &task.script, task.define_at)?;
    Ok(Some(life))
}

/// The life of the task of this id that its enabling begins behind so many points, unless it is enabled.
fn enabled_life(
    alloc: Global,
    points: u64,
    tasks: &[StoredTask],
    id: &Text,
) -> Result<Option<Life>, NoMemory>
    ensures { IfOk result (λ life.
        option_to_list life ≡ life_of points (task_of id.now tasks.now)) }
{
    match find_task(tasks, id) {
        Some(at) => life_of(alloc, points, &tasks[at]),
        None => Ok(None),
    }
}

/// The life that the record begins, whose gate stands at this offset, behind so many points.
pub(crate) fn begun(
    alloc: Global,
    points: u64,
    at: u64,
    rec: &Rec,
    tasks: &[StoredTask],
) -> Result<Option<Life>, NoMemory>
    ensures { IfOk result (λ life. option_to_list life ≡ begun points at rec.now tasks.now) }
{
    match rec {
        Rec::Define {
            id,
            script,
            enabled,
        } => {
            if !*enabled {
                return Ok(None);
            }
            let life = new_life(alloc, points, id, script, at)?;
            Ok(Some(life))
        }
        Rec::Enable { id } => enabled_life(alloc, points, tasks, id),
        _ => Ok(None),
    }
}

/// Changes the lives by the record, behind so many points. It begins this life, if any.
pub(crate) fn change_lives(
    lives: &mut Vec<Life>,
    tasks: &[StoredTask],
    rec: &Rec,
    points: u64,
    life: Option<Life>,
)
    requires { vec_len lives.old < vec_capacity lives.old }
    ensures { lives.new.items ≡ ended points rec.now tasks.now lives.old.items
        ++ option_to_list life }
{
    end_lives(lives, tasks, rec, points);
    put_life(lives, life);
}

/// The numbers of the lives that are open.
fn open_lives(alloc: Global, lives: &[Life]) -> Result<LifeNumbers, NoMemory>
    ensures { IfOk result (λ numbers. numbers ≡ open_from 1 lives.now) }
{
    let mut numbers = LifeNumbers::new(alloc);
    let mut number = 0u32;
    let mut rest = lives;
    'passing: while let Some((life, others)) = rest.split_first() {
        let Some(next) = number.checked_add(1) else {
            return Err(NoMemory);
        };
        number = next;
        if is_open(life) {
            numbers.push(number)?;
        }
        rest = others;
    }
    Ok(numbers)
}

/// The snapshot that the record is, whose gate stands at this offset.
pub(crate) fn snap_in(
    alloc: Global,
    at: u64,
    rec: &Rec,
    lives: &[Life],
) -> Result<Option<Snapshot>, NoMemory>
    ensures { IfOk result (λ snap. snap ≡ snap_in at rec.now lives.now) }
{
    match rec {
        Rec::Snap {
            points,
            trans,
            states: _,
        } => Ok(Some(Snapshot {
            at,
            points: *points,
            transitions: *trans,
            lives: open_lives(alloc, lives)?,
        })),
        _ => Ok(None),
    }
}
