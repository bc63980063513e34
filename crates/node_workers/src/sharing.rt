//! Workers beside each other, each with cells of its own.

ghost use Rattle.std.specs.Prelude.{◌<◌};
ghost use Rattle.std.specs.List.{AllZip};
ghost use Rattle.node_workers.specs.Workers.{HasStood, HasStoodLife};

use crate::turns::{Worker, short, work};
use flow_cells::Cell;
use flow_core::Numbered;
use flow_life::Life;
use kap_io::Gate;
use node_core::Node;
use std::alloc::Global;
use std::thread;
use std::thread::Threads;

/// A worker has some lives, one after the other.
fn work_lives<N: Node, G: Gate>(
    alloc: Global,
    lives: &mut [Numbered<Life<N>>],
    worker: &mut Worker,
    gate: &G,
)
    ensures { AllZip (HasStoodLife N.Node) lives.old lives.new }
{
    if let Some((first, others)) = lives.split_first_mut() {
        let mut cells = first.life.take_cells(alloc);
        work(alloc, &mut cells, worker, gate);
        first.life.put_cells(cells);
        work_lives(alloc, others, worker, gate);
    }
}

/// Each worker has lives of its own, as many as the others.
fn deal_lives<N: Node + Send, G: Gate + Sync, R: Threads + Sync>(
    rt: &R,
    alloc: Global,
    lives: &mut [Numbered<Life<N>>],
    size: usize,
    gate: &G,
)
    requires { 0 < size }
    ensures { AllZip (HasStoodLife N.Node) lives.old lives.new }
{
    thread::for_each_chunk_mut(
        rt,
        lives,
        size,
        &|start: usize, own: &mut [Numbered<Life<N>>]|
            requires { 0 < size }
            ensures { AllZip (HasStoodLife N.Node) own.entry.now own.exit.now }
        {
            let mut worker = Worker {
                number: short(start / size),
                turn: 0,
                whole: true,
            };
            work_lives(alloc, own, &mut worker, gate);
        },
    );
}

/// Each worker has a part of the cells of a life. The first one has this number.
fn deal_cells<N: Node + Send, G: Gate + Sync, R: Threads + Sync>(
    rt: &R,
    alloc: Global,
    cells: &mut [Cell<N>],
    size: usize,
    first: usize,
    gate: &G,
)
    requires { 0 < size }
    ensures { AllZip HasStood cells.old cells.new }
{
    thread::for_each_chunk_mut(
        rt,
        cells,
        size,
        &|start: usize, own: &mut [Cell<N>]|
            requires { 0 < size }
            ensures { AllZip HasStood own.entry.now own.exit.now }
        {
            let mut worker = Worker {
                number: short(first.saturating_add(start / size)),
                turn: 0,
                whole: false,
            };
            work(alloc, own, &mut worker, gate);
        },
    );
}

/// So many workers share the cells of each life, one life after the other. The first one has this number.
fn share_lives<N: Node + Send, G: Gate + Sync, R: Threads + Sync>(
    rt: &R,
    alloc: Global,
    lives: &mut [Numbered<Life<N>>],
    workers: usize,
    first: usize,
    gate: &G,
)
    requires { 0 < workers }
    ensures { AllZip (HasStoodLife N.Node) lives.old lives.new }
{
    if let Some((life, others)) = lives.split_first_mut() {
        let mut cells = life.life.take_cells(alloc);
        let size = cells.len().div_ceil(workers).max(1);
        deal_cells(rt, alloc, &mut cells, size, first, gate);
        life.life.put_cells(cells);
        share_lives(rt, alloc, others, workers, first, gate);
    }
}

/// Fewer lives than workers: so many workers share each life, and each life has others.
fn split_lives<N: Node + Send, G: Gate + Sync, R: Threads + Sync>(
    rt: &R,
    alloc: Global,
    lives: &mut [Numbered<Life<N>>],
    workers: usize,
    gate: &G,
)
    requires { 0 < workers }
    ensures { AllZip (HasStoodLife N.Node) lives.old lives.new }
{
    thread::for_each_chunk_mut(
        rt,
        lives,
        1,
        &|start: usize, own: &mut [Numbered<Life<N>>]|
            requires { 0 < workers }
            ensures { AllZip (HasStoodLife N.Node) own.entry.now own.exit.now }
        {
            let first = start.saturating_mul(workers);
            share_lives(rt, alloc, own, workers, first, gate);
        },
    );
}

/// Has the cells of lives moved by at most so many workers. Where there are at least as many lives, each
/// worker has whole lives; else a life's cells are shared among as many workers as there are for each.
pub(crate) fn run_workers<N: Node + Send, G: Gate + Sync, R: Threads + Sync>(
    rt: &R,
    alloc: Global,
    lives: &mut [Numbered<Life<N>>],
    workers: u32,
    gate: &G,
)
    requires { 0 < workers }
    ensures { AllZip (HasStoodLife N.Node) lives.old lives.new }
{
    let workers = workers as usize;
    let count = lives.len().max(1);
    if count < workers {
        split_lives(rt, alloc, lives, workers / count, gate);
    } else {
        deal_lives(rt, alloc, lives, count.div_ceil(workers), gate);
    }
}
