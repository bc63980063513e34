//! The options of a replay, and of a write.

ghost use Rattle.std.specs.Prelude.{◌≡◌, ◌==◌, ◌<◌, ◌≤◌, IfSome, slice_index};
ghost use Rattle.edge_queue.specs.declared.TheConstants.{CAPACITY_LIMIT};
ghost use Rattle.node_workers.specs.declared.TheConstants.{WORKER_LIMIT};
ghost use Rattle.kap_server.specs.Options.{AreWithinLimits, AreWriteLimits, capacity_of, has_leading_zero, no_options, no_write_options, number_in, number_within, with_capacity, with_counts, with_running, with_schedule, with_unit, with_value, with_workers, with_write_value, unit_named, unit_of, workers_for, workers_of};

use edge_queue::CAPACITY_LIMIT;
use line_points::Unit;
use node_workers::WORKER_LIMIT;

/// For how many messages each edge of a net has room, where no option says it.
const CAPACITY: u32 = 64;

/// How many workers there are at most, where no option says it.
const WORKERS: usize = 4;

/// How a replay is to run, and what it is to tell.
#[derive(Clone, Copy)]
pub(crate) struct ReplayOptions {
    /// Whether it tells how many points each node dropped.
    pub counts: bool,
    /// How many workers move the net, where that is given.
    pub workers: Option<u32>,
    /// The number of the order in which a net is to run, where one is given.
    pub schedule: Option<u32>,
    /// For how many messages each edge of a net is to have room, where that is given.
    pub capacity: Option<u32>,
}

/// How points are to be written.
#[derive(Clone, Copy)]
pub(crate) struct WriteOptions {
    /// How many workers move the net, and how much room its edges have.
    pub running: ReplayOptions,
    /// What the times of the points count, where that is given.
    pub unit: Option<Unit>,
}

/// No options.
pub(crate) fn no_options() -> ReplayOptions
    ensures options { result ≡ no_options }
    ensures limits { AreWithinLimits result }
{
    ReplayOptions {
        counts: false,
        workers: None,
        schedule: None,
        capacity: None,
    }
}

/// For how many messages each edge of a net has room.
pub(crate) fn capacity_of(options: ReplayOptions) -> u32
    requires { AreWithinLimits options }
    ensures given { result ≡ capacity_of options }
    ensures some { 0 < result }
    ensures limit { result ≤ CAPACITY_LIMIT }
{
    match options.capacity {
        Some(capacity) => capacity,
        None => CAPACITY,
    }
}

/// How many workers move a net of so many tasks, where no option says it: one for each of the first four.
/// More of them would share the nodes of a task, and to hand each point from thread to thread costs more than
/// it saves.
fn workers_for(tasks: usize) -> u32
    ensures number { result ≡ workers_for tasks }
    ensures some { 0 < result }
    ensures limit { result ≤ WORKER_LIMIT }
{
    tasks.min(WORKERS).max(1) as u32
}

/// How many workers move a net of so many tasks.
pub(crate) fn workers_of(options: ReplayOptions, tasks: usize) -> u32
    requires { AreWithinLimits options }
    ensures given { result ≡ workers_of options tasks }
    ensures some { 0 < result }
    ensures limit { result ≤ WORKER_LIMIT }
{
    match options.workers {
        Some(workers) => workers,
        None => workers_for(tasks),
    }
}

fn has_plus(word: &[u8]) -> bool
    ensures { result ≡ (slice_index word.now 0 == 43) }
{
    matches!(word, [b'+', ..])
}

/// Whether a zero stands before other bytes.
fn has_leading_zero(word: &[u8]) -> bool
    ensures { result ≡ has_leading_zero word.now }
{
    matches!(word, [b'0', _, ..])
}

/// The number below 2^32 that digits write without a sign or a leading zero.
fn number_in(word: &str) -> Option<u32>
    ensures { result ≡ number_in word.now }
{
    if has_plus(word.as_bytes()) || has_leading_zero(word.as_bytes()) {
        return None;
    }
    word.parse::<u32>().ok()
}

/// The number that a word writes so, where it lies within limits.
pub(crate) fn number_within(low: u32, high: u32, word: &str) -> Option<u32>
    ensures number { result ≡ number_within low high word.now }
    ensures within { IfSome result (λ n. (low ≤ n) × (n ≤ high)) }
{
    let number = number_in(word)?;
    if number < low || high < number {
        return None;
    }
    Some(number)
}

/// With `--counts`, where it wasn't given before.
pub(crate) fn with_counts(options: ReplayOptions) -> Option<ReplayOptions>
    ensures options { result ≡ with_counts options }
    ensures limits { AreWithinLimits options → IfSome result AreWithinLimits }
{
    if options.counts {
        return None;
    }
    Some(ReplayOptions {
        counts: true,
        workers: options.workers,
        schedule: options.schedule,
        capacity: options.capacity,
    })
}

/// With `--workers` and this value, where it wasn't given before.
fn with_workers(options: ReplayOptions, value: &str) -> Option<ReplayOptions>
    ensures options { result ≡ with_workers options value.now }
    ensures limits { AreWithinLimits options → IfSome result AreWithinLimits }
{
    if options.workers.is_some() {
        return None;
    }
    let number = number_within(1, WORKER_LIMIT, value)?;
    Some(ReplayOptions {
        counts: options.counts,
        workers: Some(number),
        schedule: options.schedule,
        capacity: options.capacity,
    })
}

/// With `--schedule` and this value, where it wasn't given before.
fn with_schedule(options: ReplayOptions, value: &str) -> Option<ReplayOptions>
    ensures options { result ≡ with_schedule options value.now }
    ensures limits { AreWithinLimits options → IfSome result AreWithinLimits }
{
    if options.schedule.is_some() {
        return None;
    }
    let number = number_in(value)?;
    Some(ReplayOptions {
        counts: options.counts,
        workers: options.workers,
        schedule: Some(number),
        capacity: options.capacity,
    })
}

/// With `--capacity` and this value, where it wasn't given before.
fn with_capacity(options: ReplayOptions, value: &str) -> Option<ReplayOptions>
    ensures options { result ≡ with_capacity options value.now }
    ensures limits { AreWithinLimits options → IfSome result AreWithinLimits }
{
    if options.capacity.is_some() {
        return None;
    }
    let number = number_within(1, CAPACITY_LIMIT, value)?;
    Some(ReplayOptions {
        counts: options.counts,
        workers: options.workers,
        schedule: options.schedule,
        capacity: Some(number),
    })
}

/// With the option of this name and this value, where it is one and wasn't given before.
pub(crate) fn with_value(options: ReplayOptions, name: &str, value: &str) -> Option<ReplayOptions>
    ensures options { result ≡ with_value options name.now value.now }
    ensures limits { AreWithinLimits options → IfSome result AreWithinLimits }
{
    if name == "--workers" {
        with_workers(options, value)
    } else if name == "--schedule" {
        with_schedule(options, value)
    } else if name == "--capacity" {
        with_capacity(options, value)
    } else {
        None
    }
}

/// No options of a write.
pub(crate) fn no_write_options() -> WriteOptions
    ensures options { result ≡ no_write_options }
    ensures limits { AreWriteLimits result }
{
    WriteOptions {
        running: no_options(),
        unit: None,
    }
}

/// What times count: nanoseconds, where no option says it.
pub(crate) fn unit_of(options: WriteOptions) -> Unit
    ensures { result ≡ unit_of options }
{
    options.unit.unwrap_or(Unit::Ns)
}

/// The unit of this name (InfluxDB 1.8: the write endpoint).
fn unit_named(name: &str) -> Option<Unit>
    ensures { result ≡ unit_named name.now }
{
    if name == "ns" {
        Some(Unit::Ns)
    } else if name == "n" {
        Some(Unit::Ns)
    } else if name == "u" {
        Some(Unit::Us)
    } else if name == "ms" {
        Some(Unit::Ms)
    } else if name == "s" {
        Some(Unit::S)
    } else if name == "m" {
        Some(Unit::M)
    } else if name == "h" {
        Some(Unit::H)
    } else {
        None
    }
}

/// With these options of workers and edges, if there are any.
fn with_running(options: WriteOptions, running: Option<ReplayOptions>) -> Option<WriteOptions>
    ensures options { result ≡ with_running options running }
    ensures limits { IfSome running AreWithinLimits → IfSome result AreWriteLimits }
{
    Some(WriteOptions {
        running: running?,
        unit: options.unit,
    })
}

/// With `--precision` and this value, where it wasn't given before.
fn with_unit(options: WriteOptions, value: &str) -> Option<WriteOptions>
    ensures options { result ≡ with_unit options value.now }
    ensures limits { AreWriteLimits options → IfSome result AreWriteLimits }
{
    if options.unit.is_some() {
        return None;
    }
    let unit = unit_named(value)?;
    Some(WriteOptions {
        running: options.running,
        unit: Some(unit),
    })
}

/// With the option of a write of this name and this value, where it is one and wasn't given before.
pub(crate) fn with_write_value(
    options: WriteOptions,
    name: &str,
    value: &str,
) -> Option<WriteOptions>
    ensures options { result ≡ with_write_value options name.now value.now }
    ensures limits { AreWriteLimits options → IfSome result AreWriteLimits }
{
    if name == "--workers" {
        with_running(options, with_workers(options.running, value))
    } else if name == "--capacity" {
        with_running(options, with_capacity(options.running, value))
    } else if name == "--precision" {
        with_unit(options, value)
    } else {
        None
    }
}
