//! The summary of a replay of the sample recording.

ghost use Rattle.std.specs.Prelude.{◌≡◌, ◌≤◌, ◌<◌, ◌++◌, ◌-◌, List, IfOk, OnOk, codes, false, length, map};
ghost use Rattle.std.specs.List.{AllByRecursion as Each};
ghost use Rattle.std.specs.Fmt.{decimal};
ghost use Rattle.edge_queue.specs.declared.TheConstants.{CAPACITY_LIMIT};
ghost use Rattle.flow_core.specs.Carried.{HasCarried};
ghost use Rattle.flow_core.specs.Gathering.{LivesRise};
ghost use Rattle.flow_core.specs.Making.{HasFewParents};
ghost use Rattle.kap_base.specs.declared.items.Effect.{Effect};
ghost use Rattle.net_run.specs.Paces.{next_limit};
ghost use Rattle.task_run.specs.Lives.{effects_of};
ghost use Rattle.task_run.specs.Plans.{AreFirstStates, graph_of};
ghost use Rattle.sample_points.specs.Samples.{samples};
ghost use Rattle.sample_replay.specs.Summaries.{HasCounted, summary, summary_lines};

use crate::counts::{Counts, count};
use edge_queue::CAPACITY_LIMIT;
use effect_text::TaskNames;
use flow_core::Net;
use itoa::Buffer;
use kap_base::{Bytes, NoMemory, Point, Shared};
use kap_io::Gate;
use net_run::{NetRun, NumberingNode, Pace, Way};
use node_core::Node;
use sample_points::{SAMPLE_LIMIT, sample_point};
use std::alloc::Global;
use std::thread::Threads;
use task_run::LifePlan;

/// The summary of a replay, and the net through which its points went.
#[derive(Drop)]
pub struct Summary<N: Node> {
    /// Four lines: how many points there are, how many lines of logged points and of transitions, and how
    /// many bytes these lines have together.
    pub text: Bytes,
    /// The net, at rest.
    pub net: Net<N>,
}

/// Adds a line of a word and a number.
fn put_count(word: &[u8], count: u64, text: &mut Bytes) -> Result<(), NoMemory>
    ensures { OnOk result (text.new ≡ text.old ++ word.now ++ codes " " ++ decimal count ++ codes "\n") }
{
    let mut number = Buffer::new();
    text.append(word)?;
    text.push(b' ')?;
    text.append(number.format(count).as_bytes())?;
    text.push(b'\n')
}

/// The four lines of a summary.
fn lines(alloc: Global, points: u64, out: u64, alerts: u64, bytes: u64) -> Result<Bytes, NoMemory>
    ensures { IfOk result (λ text. text ≡ summary_lines points out alerts bytes) }
{
    let mut text = Bytes::new(alloc);
    put_count(b"points", points, &mut text)?;
    put_count(b"out", out, &mut text)?;
    put_count(b"alerts", alerts, &mut text)?;
    put_count(b"bytes", bytes, &mut text)?;
    Ok(text)
}

/// The points of the numbers behind `from`, up to `to`.
fn samples_behind(alloc: Global, from: u64, to: u64) -> Result<Vec<Shared<Point>>, NoMemory>
    requires order { from ≤ to }
    requires limit { to ≤ SAMPLE_LIMIT }
    ensures { IfOk result (λ points. samples to ≡ samples from ++ points.items) }
{
    let mut points = Vec::new(alloc);
    'sampling: for number in from..to {
        let point = Shared::new(alloc, sample_point(alloc, number + 1)?)?;
        points.push(point)?;
    }
    Ok(points)
}

/// Runs lives on the points of the numbers behind `from`, up to `to`, and counts what they do, and sets the
/// pace by it. After NoMemory the run can't go on.
fn run_samples<N: NumberingNode + Send, R: Threads + Sync, G: Gate + Sync>(
    alloc: Global,
    from: u64,
    to: u64,
    names: &[TaskNames],
    run: &mut NetRun<N>,
    way: &Way<'_, R, G>,
    counts: &mut Counts,
    pace: &mut Pace,
    text: &mut Bytes,
) -> Result<(), NoMemory>
    requires order { from ≤ to }
    requires limit { to ≤ SAMPLE_LIMIT }
    requires spent { run.old.spent ≡ false }
    requires points { run.old.points ≡ samples from }
    requires counted { HasCounted names.now
        (effects_of N.answer run.old.lives run.old.points)
        counts.old.points counts.old.bytes counts.old.topics }
    ensures spent { OnOk result (run.new.spent ≡ false) }
    ensures lives { OnOk result (run.new.lives ≡ run.old.lives) }
    ensures points { OnOk result (run.new.points ≡ samples to) }
    ensures counted { OnOk result (HasCounted names.now
        (effects_of N.answer run.new.lives run.new.points)
        counts.new.points counts.new.bytes counts.new.topics) }
    ensures pace { OnOk result ((effects : List Effect)
        → effects_of N.answer run.old.lives run.new.points
        ≡ effects_of N.answer run.old.lives run.old.points ++ effects
        → pace.new.limit ≡ next_limit pace.old.limit (to - from) (length effects)
        (counts.new.bytes - counts.old.bytes)) }
{
    let points = samples_behind(alloc, from, to)?;
    let few = points.len();
    let ran = run.run(alloc, points, false, way)?;
    count(alloc, names, counts, ran.0.as_slice(), text)?;
    pace.follow(few, ran.0.len(), text.len());
    Ok(())
}

/// The summary of a replay of the sample recording of so many points, 1,000,000 at most, by lives of tasks
/// that are named so, in a net that comes to rest in this way and whose edges have room for 1 to 65,536
/// messages; and that net, each of whose edges has carried, barriers aside, what its parent gives out for
/// these points. The lives' numbers rise from 1 on.
pub fn summarize<N: NumberingNode + Send, R: Threads + Sync, G: Gate + Sync>(
    alloc: Global,
    count: u64,
    names: &[TaskNames],
    plans: Vec<LifePlan<N>>,
    capacity: u32,
    way: &Way<'_, R, G>,
) -> Result<Summary<N>, NoMemory>
    requires limit { count ≤ SAMPLE_LIMIT }
    requires first { AreFirstStates N.spec N.state N.first plans.items }
    requires rise { LivesRise N.life N.number 1 (map (graph_of N.spec) plans.items) }
    requires few { Each HasFewParents plans.items }
    requires some { 0 < capacity }
    requires room { capacity ≤ CAPACITY_LIMIT }
    ensures text { IfOk result (λ s. s.text ≡ summary N.answer names.now
        (map (graph_of N.spec) plans.items) (samples count)) }
    ensures net { IfOk result (λ s. HasCarried N.Node
        (map (graph_of N.spec) plans.items) (samples count) s.net) }
{
    let mut run = NetRun::new(alloc, plans, capacity)?;
    let mut counts = Counts::new(alloc);
    let mut text = Bytes::new(alloc);
    let mut pace = Pace::new();
    let mut done = 0;
    'running: while done < count {
        let next = count.min(done + pace.limit() as u64);
        run_samples(
            alloc,
            done,
            next,
            names,
            &mut run,
            way,
            &mut counts,
            &mut pace,
            &mut text,
        )?;
        done = next;
    }
    let alerts = counts.topics.count();
    if alerts == u64::MAX {
        return Err(NoMemory);
    }
    let text = lines(alloc, count, counts.points, alerts, counts.bytes)?;
    Ok(Summary {
        text,
        net: run.into_net(),
    })
}
