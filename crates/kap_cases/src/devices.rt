//! Commands whose input or output fails.

use crate::answers::answer;
use crate::fault::CaseFault;
use crate::ways::Ways;
use case_text::numbers_in;
use kap_base::Bytes;
use kap_io::{MemSink, MemSource};
use net_run::NumberingNode;
use node_set::ScriptNode;
use std::alloc::Global;
use std::thread::Threads;

/// How a device goes: how many bytes at a time, and the numbers of its calls that fail.
#[derive(Drop)]
struct Device {
    step: usize,
    fails: Vec<u64>,
}

/// The device that a word `STEP` or `STEP/NUMBERS` describes, with commas between the numbers.
fn device_of(alloc: Global, word: &str) -> Result<Device, CaseFault> {
    let (step, fails) = match word.split_once('/') {
        Some((step, numbers)) => (step, numbers_in(alloc, numbers, ',')?),
        None => (word, Some(Vec::new(alloc))),
    };
    match (step.parse::<usize>(), fails) {
        (Ok(step), Some(fails)) => Ok(Device { step, fails }),
        _ => Err(CaseFault::NoDevices),
    }
}

/// An input of these bytes.
fn source_of(alloc: Global, input: &[u8], device: Device) -> Result<MemSource, CaseFault> {
    let bytes = input.to_vec(alloc)?;
    Ok(MemSource::new(alloc, bytes, device.step.max(1), device.fails))
}

/// What a command writes on the first disk, over an input and an output that go as a line says.
pub fn devices_answer<R: Threads + Sync, N: ScriptNode + NumberingNode + Send>(
    rt: &R,
    alloc: Global,
    words: &[String],
    input: &[u8],
    ways: &mut Ways,
    text: &str,
) -> Result<Bytes, CaseFault> {
    let (reads, writes) = text.split_once(' ').ok_or(CaseFault::NoDevices)?;
    let source = source_of(alloc, input, device_of(alloc, reads)?)?;
    let taking = device_of(alloc, writes)?;
    let sink = MemSink::new(alloc, taking.step.max(1), taking.fails);
    let outcome = ways.outcome_with::<R, N>(rt, alloc, words, source, sink);
    Ok(answer(alloc, &outcome)?)
}
