//! Lives that run in parts side by side, each part a net of its own.

ghost use Rattle.std.specs.Prelude.{◌≡◌, ◌<◌, ◌≤◌, ◌++◌, [], None, false, map, IfOk, OnOk, length};
ghost use Rattle.std.specs.List.{AllByRecursion as Each, AllZip};
ghost use Rattle.edge_queue.specs.declared.TheConstants.{CAPACITY_LIMIT};
ghost use Rattle.net_run.specs.declared.TheConstants.{EPOCH_LIMIT};
ghost use Rattle.task_run.specs.Lives.{effects_of};
ghost use Rattle.task_run.specs.Plans.{AreFirstStates, graph_of};
ghost use Rattle.flow_core.specs.Carried.{HasCarried};
ghost use Rattle.flow_core.specs.Gathering.{LivesRise};
ghost use Rattle.flow_core.specs.Making.{HasFewParents};
ghost use Rattle.flow_core.specs.Rooms.{HasRoomIn};
ghost use Rattle.kap_server.specs.Epochs.{IsAhead};
ghost use Rattle.kap_server.specs.Parts.{AreBeside, AreOne, HasJoined, HasRun, HasTold};
ghost use Rattle.kap_server.specs.Parts.{dropped_of_runs, first_run, lives_of_runs, points_of_runs};
ghost use Rattle.kap_server.specs.Parts.{with_points};

use crate::reading::EpochReader;
use edge_queue::CAPACITY_LIMIT;
use effect_text::{Printed, TaskNames, print_lines};
use flow_core::Net;
use kap_base::{NoMemory, Point, Shared};
use kap_io::{Gate, NoGate};
use net_run::{EPOCH_LIMIT, NetRun, NumberingNode, Way, Workers, join_nets};
use node_core::{Effects, Node};
use std::alloc::Global;
use std::marker::Model;
use std::thread::Threads;
use std::{mem, thread};
use task_run::{Counts, LifePlan};

/// Some of the lives of a replay, in a net of their own.
#[derive(Drop)]
struct Part<N: Node> {
    run: NetRun<N>,
    /// What its lives tell of the last epoch.
    told: Printed,
    /// Whether memory ran out in it.
    failed: bool,
}

/// What lives do on the points of an epoch, and the points that are held.
#[derive(Drop)]
pub(crate) enum Ran {
    /// The effects of all.
    Whole(Effects, Vec<Shared<Point>>),
    /// What each part tells.
    InParts(Vec<Printed>, Vec<Shared<Point>>),
}

/// All lives of a replay, in parts that are run side by side. Contracts see them as one run.
#[derive(Drop)]
pub(crate) struct Parts<N: Node> {
    parts: Vec<Part<N>>,
    /// How many epochs were run.
    epochs: u64,
    spent: bool,
}

impl<N: Node> Model for Parts<N> {
    ghost use Rattle.std.specs.Coded.{codes};
    ghost use Rattle.std.specs.Prelude.{◌≡◌, false, map};
    ghost use Rattle.kap_base.specs.Maps.{key_map_code};
    ghost use Rattle.net_run.specs.Runs.{NetRunValue};
    ghost use Rattle.kap_server.specs.Parts.{AreOne, one_run};

    ghost Value = { NetRunValue N.Spec };

    ghost coded = { Prim.hlevel (codes, key_map_code) };

    ghost view = { λ p. one_run p.spent (map (λ part. part.run) p.parts.items) };

    ghost invariant = { λ p. p.spent ≡ false
        → AreOne (map (λ part. part.run) p.parts.items) };
}

/// A part of these plans, before the first point.
fn part_of<N: NumberingNode + Send>(
    alloc: Global,
    plans: Vec<LifePlan<N>>,
    capacity: u32,
) -> Result<Part<N>, NoMemory>
    requires first { AreFirstStates N.spec N.state N.first plans.items }
    requires rise { LivesRise N.life N.number 1 (map (graph_of N.spec) plans.items) }
    requires few { Each HasFewParents plans.items }
    requires some { 0 < capacity }
    requires limit { capacity ≤ CAPACITY_LIMIT }
    ensures { IfOk result (λ part.
        part.run ≡ first_run capacity (map (graph_of N.spec) plans.items)) }
{
    Ok(Part {
        run: NetRun::new(alloc, plans, capacity)?,
        told: Printed::new(alloc),
        failed: false,
    })
}

/// Parts of so many plans, one behind the other; the last may have fewer.
fn parts_of<N: NumberingNode + Send>(
    alloc: Global,
    plans: Vec<LifePlan<N>>,
    capacity: u32,
    size: usize,
) -> Result<Vec<Part<N>>, NoMemory>
    requires first { AreFirstStates N.spec N.state N.first plans.items }
    requires rise { LivesRise N.life N.number 1 (map (graph_of N.spec) plans.items) }
    requires few { Each HasFewParents plans.items }
    requires some { 0 < capacity }
    requires limit { capacity ≤ CAPACITY_LIMIT }
    requires size { 0 < size }
    ensures lives { IfOk result (λ parts. lives_of_runs (map (λ part. part.run) parts.items)
        ≡ map (graph_of N.spec) plans.items) }
    ensures beside { IfOk result (λ parts.
        AreBeside [] capacity (map (λ part. part.run) parts.items)) }
{
    let mut parts = Vec::new(alloc);
    let mut rest = plans;
    'parting: while size < rest.len() {
        let behind = rest.split_off(size)?;
        parts.push(part_of(alloc, rest, capacity)?)?;
        rest = behind;
    }
    parts.push(part_of(alloc, rest, capacity)?)?;
    Ok(parts)
}

/// Runs the lives of a part on the next points in this way, and prints the lines of those that they log. Only
/// a part that has failed may not be looked at.
fn run_part<N: NumberingNode + Send, R: Threads + Sync, G: Gate + Sync>(
    alloc: Global,
    names: &[TaskNames],
    points: &Vec<Shared<Point>>,
    way: &Way<'_, R, G>,
    part: &mut Part<N>,
)
    requires { part.old.run.spent ≡ false }
    ensures { part.new.failed ≡ false
        → HasTold N.answer names.now points.now.items part.old.run part.new.run part.new.told }
{
    part.failed = true;
    let Ok(effects) = part.run.run_on(alloc, points, way) else {
        return;
    };
    let Ok(told) = print_lines(alloc, names, effects.into_items()) else {
        return;
    };
    part.told = told;
    part.failed = false;
}

/// Runs one part after the other.
fn run_in_turn<N: NumberingNode + Send, R: Threads + Sync, G: Gate + Sync>(
    alloc: Global,
    names: &[TaskNames],
    points: &Vec<Shared<Point>>,
    way: &Way<'_, R, G>,
    parts: &mut [Part<N>],
)
    requires { Each (λ part. part.run.spent ≡ false) parts.old }
    ensures { AllZip (λ p q. q.failed ≡ false
        → HasTold N.answer names.now points.now.items p.run q.run q.told) parts.old parts.new }
{
    if let Some((first, others)) = parts.split_first_mut() {
        run_part(alloc, names, points, way, first);
        run_in_turn(alloc, names, points, way, others);
    }
}

/// A number of 32 bits, or the greatest one.
fn short(n: usize) -> u32 {
    u32::try_from(n).unwrap_or(u32::MAX)
}

/// Runs parts side by side, in at most so many threads, each part by one of them. Before its work it passes
/// the gate with its number and that of the epoch.
fn run_beside<N: NumberingNode + Send, R: Threads + Sync, G: Gate + Sync>(
    rt: &R,
    alloc: Global,
    names: &[TaskNames],
    points: &Vec<Shared<Point>>,
    threads: usize,
    gate: &G,
    epoch: u64,
    parts: &mut [Part<N>],
)
    requires threads { 0 < threads }
    requires unspent { Each (λ part. part.run.spent ≡ false) parts.old }
    ensures { AllZip (λ p q. q.failed ≡ false
        → HasTold N.answer names.now points.now.items p.run q.run q.told) parts.old parts.new }
{
    thread::for_each_mut(
        rt,
        parts,
        threads,
        &|place: usize, part: &mut Part<N>|
            requires { part.now.run.spent ≡ false }
            ensures { part.exit.now.failed ≡ false
                → HasTold N.answer names.entry.now points.entry.now.items
                part.entry.now.run part.exit.now.run part.exit.now.told }
        {
            gate.pass(short(place), epoch);
            let open = NoGate;
            let alone = Way::Workers(Workers::new(rt, 1, &open, 0));
            run_part(alloc, names, points, &alone, part);
        },
    );
}

/// Runs parts side by side, and gives them back.
fn run_own<N: NumberingNode + Send, R: Threads + Sync, G: Gate + Sync>(
    rt: &R,
    alloc: Global,
    names: &[TaskNames],
    points: &Vec<Shared<Point>>,
    threads: usize,
    gate: &G,
    epoch: u64,
    parts: Vec<Part<N>>,
) -> Vec<Part<N>>
    requires threads { 0 < threads }
    requires unspent { Each (λ part. part.run.spent ≡ false) parts.items }
    ensures { AllZip (λ p q. q.failed ≡ false
        → HasTold N.answer names.now points.now.items p.run q.run q.told) parts.items result.items }
{
    let mut parts = parts;
    run_beside(
        rt,
        alloc,
        names,
        points,
        threads,
        gate,
        epoch,
        parts.as_mut_slice(),
    );
    parts
}

/// Runs parts side by side, and reads the next epoch ahead meanwhile, in one thread more.
fn run_and_read<N: NumberingNode + Send, R: Threads + Sync, G: Gate + Sync>(
    rt: &R,
    alloc: Global,
    names: &[TaskNames],
    points: &Vec<Shared<Point>>,
    threads: usize,
    gate: &G,
    epoch: u64,
    reading: EpochReader,
    limit: usize,
    parts: Vec<Part<N>>,
) -> Result<(EpochReader, Vec<Part<N>>), NoMemory>
    requires threads { 0 < threads }
    requires none { reading.ahead ≡ None }
    requires some { 0 < limit }
    requires most { limit ≤ EPOCH_LIMIT }
    requires unspent { Each (λ part. part.run.spent ≡ false) parts.items }
    ensures ahead { IfOk result (λ r. IsAhead reading.reader r.0.reader r.0.ahead) }
    ensures parts { IfOk result (λ r. AllZip (λ p q. q.failed ≡ false
        → HasTold N.answer names.now points.now.items p.run q.run q.told) parts.items r.1.items) }
{
    let (read, parts) = thread::join(
        rt,
        move || -> Result<EpochReader, NoMemory>
            requires { (reading.ahead ≡ None) × (0 < limit) × (limit ≤ EPOCH_LIMIT) }
            ensures { IfOk result (λ r. IsAhead reading.reader r.reader r.ahead) }
        { reading.read_ahead(alloc, limit) },
        move || -> Vec<Part<N>>
            requires { (0 < threads) × Each (λ part. part.run.spent ≡ false) parts.items }
            ensures { AllZip (λ p q. q.failed ≡ false → HasTold N.answer names.entry.now
                points.entry.now.items p.run q.run q.told) parts.items result.items }
        { run_own(rt, alloc, names, points, threads, gate, epoch, parts) },
    );
    Ok((read?, parts))
}

/// Runs parts on the points of an epoch, side by side where the way has threads for them; then the next epoch
/// is read ahead.
fn run_epoch<N: NumberingNode + Send, R: Threads + Sync, G: Gate + Sync>(
    alloc: Global,
    names: &[TaskNames],
    points: &Vec<Shared<Point>>,
    way: &Way<'_, R, G>,
    epoch: u64,
    reading: &mut EpochReader,
    limit: usize,
    parts: &mut Vec<Part<N>>,
) -> Result<(), NoMemory>
    requires none { reading.old.ahead ≡ None }
    requires some { 0 < limit }
    requires most { limit ≤ EPOCH_LIMIT }
    requires unspent { Each (λ part. part.run.spent ≡ false) parts.old.items }
    ensures ahead { OnOk result
        (IsAhead reading.old.reader reading.new.reader reading.new.ahead) }
    ensures parts { OnOk result (AllZip (λ p q. q.failed ≡ false
        → HasTold N.answer names.now points.now.items p.run q.run q.told)
        parts.old.items parts.new.items) }
{
    match way {
        Way::Schedule(_) => run_in_turn(alloc, names, points, way, parts.as_mut_slice()),
        Way::Workers(workers) => {
            let (read, run) = run_and_read(
                workers.runtime(),
                alloc,
                names,
                points,
                workers.count_for(points.len()) as usize,
                workers.gate(),
                epoch,
                mem::replace(reading, EpochReader::new(alloc)),
                limit,
                mem::replace(parts, Vec::new(alloc)),
            )?;
            *reading = read;
            *parts = run;
        }
    }
    Ok(())
}

/// Puts what each part tells behind what others tell, unless one has failed.
fn take_told<N: Node>(
    alloc: Global,
    parts: &mut [Part<N>],
    told: &mut Vec<Printed>,
) -> Result<(), NoMemory>
    ensures told { OnOk result
        (told.new.items ≡ told.old.items ++ map (λ part. part.told) parts.old) }
    ensures fine { OnOk result (Each (λ part. part.failed ≡ false) parts.old) }
    ensures runs { OnOk result (map (λ part. part.run) parts.new
        ≡ map (λ part. part.run) parts.old) }
{
    let Some((first, others)) = parts.split_first_mut() else {
        return Ok(());
    };
    if first.failed {
        return Err(NoMemory);
    }
    told.push(mem::replace(&mut first.told, Printed::new(alloc)))?;
    take_told(alloc, others, told)
}

/// Runs the one part that there is, and answers its effects, and the points where they are to be held.
fn run_alone<N: NumberingNode + Send, R: Threads + Sync, G: Gate + Sync>(
    alloc: Global,
    points: Vec<Shared<Point>>,
    hold: bool,
    way: &Way<'_, R, G>,
    parts: &mut [Part<N>],
) -> Result<(Effects, Vec<Shared<Point>>), NoMemory>
    requires one { length parts.old ≡ 1 }
    requires unspent { Each (λ part. part.run.spent ≡ false) parts.old }
    ensures runs { OnOk result (map (λ part. part.run) parts.new
        ≡ map (with_points points.items) (map (λ part. part.run) parts.old)) }
    ensures effects { IfOk result (λ ran. Each (λ part.
        effects_of N.answer part.run.lives (part.run.points ++ points.items)
        ≡ effects_of N.answer part.run.lives part.run.points ++ ran.0) parts.old) }
{
    parts[0].run.run(alloc, points, hold, way)
}

/// Runs parts on the points of an epoch. One part alone gives its effects, and the points where they are to
/// be held. Of several parts each tells its own, and the points are held; where they run side by side, the
/// next epoch is read ahead, of up to `limit` points.
fn run_parts<N: NumberingNode + Send, R: Threads + Sync, G: Gate + Sync>(
    alloc: Global,
    names: &[TaskNames],
    points: Vec<Shared<Point>>,
    hold: bool,
    way: &Way<'_, R, G>,
    epoch: u64,
    reading: &mut EpochReader,
    limit: usize,
    parts: &mut Vec<Part<N>>,
) -> Result<Ran, NoMemory>
    requires one { AreOne (map (λ part. part.run) parts.old.items) }
    requires none { reading.old.ahead ≡ None }
    requires some { 0 < limit }
    requires most { limit ≤ EPOCH_LIMIT }
    ensures ahead { OnOk result
        (IsAhead reading.old.reader reading.new.reader reading.new.ahead) }
    ensures runs { OnOk result (map (λ part. part.run) parts.new.items
        ≡ map (with_points points.items) (map (λ part. part.run) parts.old.items)) }
    ensures ran { IfOk result (HasRun N.answer names.now
        (points_of_runs (map (λ part. part.run) parts.old.items)) points.items
        (lives_of_runs (map (λ part. part.run) parts.old.items))) }
{
    if parts.len() == 1 {
        let (effects, left) = run_alone(alloc, points, hold, way, parts.as_mut_slice())?;
        return Ok(Ran::Whole(effects, left));
    }
    run_epoch(alloc, names, &points, way, epoch, reading, limit, parts)?;
    let mut told = Vec::new(alloc);
    take_told(alloc, parts.as_mut_slice(), &mut told)?;
    Ok(Ran::InParts(told, points))
}

/// Puts counts behind others.
fn add_counts(all: &mut Counts, more: Counts) -> Result<(), NoMemory>
    ensures { OnOk result (all.new ≡ all.old ++ more) }
{
    'adding: for counts in more.into_items() {
        all.push(counts)?;
    }
    Ok(())
}

/// How many inputs each node of each life of parts dropped and counted.
fn dropped_by<N: NumberingNode + Send>(alloc: Global, parts: &[Part<N>]) -> Result<Counts, NoMemory>
    requires { Each (λ part. part.run.spent ≡ false) parts.now }
    ensures { IfOk result (λ counts.
        counts ≡ dropped_of_runs N.answer (map (λ part. part.run) parts.now)) }
{
    let mut all = Counts::new(alloc);
    let mut rest = parts;
    'counting: while let Some((part, others)) = rest.split_first() {
        add_counts(&mut all, part.run.dropped(alloc)?)?;
        rest = others;
    }
    Ok(all)
}

/// The net of a part.
fn net_of<N: NumberingNode + Send>(part: Part<N>) -> Net<N>
    requires { part.run.spent ≡ false }
    ensures carried { HasCarried N.Node part.run.lives part.run.points result }
    ensures room { Each (HasRoomIn part.run.capacity) result.lives }
{
    let Part { run, .. } = part;
    run.into_net()
}

/// Puts the lives of parts behind those of a net.
fn join_parts<N: NumberingNode + Send>(
    alloc: Global,
    net: &mut Net<N>,
    parts: Vec<Part<N>>,
) -> Result<(), NoMemory>
    requires net { net.old.spent ≡ false }
    requires parts { Each (λ part. part.run.spent ≡ false) parts.items }
    ensures { OnOk result (HasJoined N.Node (map (λ part. part.run) parts.items)
        net.old net.new) }
{
    'joining: for part in parts {
        join_nets(alloc, net, net_of(part))?;
    }
    Ok(())
}

impl<N: NumberingNode + Send> Parts<N> {
    ghost use Rattle.std.specs.Prelude.{◌≡◌, ◌<◌, ◌≤◌, ◌++◌, false, [], None, IfOk, OnOk, length, map};
    ghost use Rattle.std.specs.List.{AllByRecursion as Each};
    ghost use Rattle.edge_queue.specs.declared.TheConstants.{CAPACITY_LIMIT};
    ghost use Rattle.flow_core.specs.Carried.{HasCarried};
    ghost use Rattle.flow_core.specs.Gathering.{LivesRise};
    ghost use Rattle.flow_core.specs.Making.{HasFewParents};
    ghost use Rattle.flow_core.specs.Rooms.{HasRoomIn};
    ghost use Rattle.net_run.specs.declared.TheConstants.{EPOCH_LIMIT};
    ghost use Rattle.task_run.specs.Lives.{dropped_of};
    ghost use Rattle.task_run.specs.Plans.{AreFirstStates, graph_of};
    ghost use Rattle.kap_server.specs.Epochs.{IsAhead};
    ghost use Rattle.kap_server.specs.Parts.{HasRun};

    /// The lives of these plans before the first point, in so many parts, or fewer where there are not as
    /// many lives. Each edge has room for so many messages.
    pub(crate) fn new(
        alloc: Global,
        plans: Vec<LifePlan<N>>,
        capacity: u32,
        count: usize,
    ) -> Result<Parts<N>, NoMemory>
        requires first { AreFirstStates N.spec N.state N.first plans.items }
        requires rise { LivesRise N.life N.number 1 (map (graph_of N.spec) plans.items) }
        requires few { Each HasFewParents plans.items }
        requires some { 0 < capacity }
        requires limit { capacity ≤ CAPACITY_LIMIT }
        requires parts { 0 < count }
        ensures { IfOk result (λ run. run
            ≡ record {
              lives = map (graph_of N.spec) plans.items;
              points = [];
              capacity = capacity;
              spent = false;
            }) }
    {
        let size = plans.len().div_ceil(count).max(1);
        Ok(Parts {
            parts: parts_of(alloc, plans, capacity, size)?,
            epochs: 0,
            spent: false,
        })
    }

    /// How many points were loaded.
    pub(crate) fn given(&self) -> u64
        requires { self.now.spent ≡ false }
        ensures { result ≡ length self.now.points }
    {
        match self.parts.first() {
            Some(part) => part.run.given(),
            None => 0,
        }
    }

    /// Runs the lives on the next points in this way. One part alone gives its effects, and the points where
    /// they are to be held. Of several parts each tells its own, side by side where the way has threads, and
    /// the points are held; then the next epoch is read ahead, of up to `limit` points. After NoMemory the
    /// run can't go on.
    pub(crate) fn run<R: Threads + Sync, G: Gate + Sync>(
        &mut self,
        alloc: Global,
        names: &[TaskNames],
        points: Vec<Shared<Point>>,
        hold: bool,
        way: &Way<'_, R, G>,
        reading: &mut EpochReader,
        limit: usize,
    ) -> Result<Ran, NoMemory>
        requires spent { self.old.spent ≡ false }
        requires none { reading.old.ahead ≡ None }
        requires some { 0 < limit }
        requires most { limit ≤ EPOCH_LIMIT }
        ensures ahead { OnOk result
            (IsAhead reading.old.reader reading.new.reader reading.new.ahead) }
        ensures lives { OnOk result (self.new.lives ≡ self.old.lives) }
        ensures points { OnOk result (self.new.points ≡ self.old.points ++ points.items) }
        ensures capacity { OnOk result (self.new.capacity ≡ self.old.capacity) }
        ensures spent { OnOk result (self.new.spent ≡ false) }
        ensures ran { IfOk result (HasRun N.answer names.now
            self.old.points points.items self.old.lives) }
    {
        self.spent = true;
        let epoch = self.epochs;
        let parts = &mut self.parts;
        let ran = run_parts(
            alloc, names, points, hold, way, epoch, reading, limit, parts,
        )?;
        self.epochs = epoch.saturating_add(1);
        self.spent = false;
        Ok(ran)
    }

    /// How many inputs each node of each life dropped and counted, life by life and node by node.
    pub(crate) fn dropped(&self, alloc: Global) -> Result<Counts, NoMemory>
        requires { self.now.spent ≡ false }
        ensures { IfOk result (λ counts.
            counts ≡ dropped_of N.answer self.now.lives self.now.points) }
    {
        dropped_by(alloc, self.parts.as_slice())
    }

    /// The net of all lives. It is at rest, and over all epochs each of its edges has carried, barriers
    /// aside, what its parent gives out for all points.
    pub(crate) fn into_net(self, alloc: Global) -> Result<Net<N>, NoMemory>
        requires { self.spent ≡ false }
        ensures carried { IfOk result (λ net. HasCarried N.Node self.lives self.points net) }
        ensures room { IfOk result (λ net. Each (HasRoomIn self.capacity) net.lives) }
    {
        let Parts { mut parts, .. } = self;
        let mut net = net_of(parts.remove(0));
        join_parts(alloc, &mut net, parts)?;
        Ok(net)
    }
}
