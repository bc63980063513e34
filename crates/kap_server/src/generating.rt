//! The command `gen`: a sample recording, and the summary of its replay.

ghost use Rattle.std.specs.Prelude.{◌≡◌, ◌≢◌, ◌≤◌, length, map, string_bytes, true};
ghost use Rattle.kap_base.specs.Words.{HasRisen};
ghost use Rattle.sample_points.specs.Samples.{sample_text};
ghost use Rattle.kap_server.specs.Generating.{Summed, WritesText};
ghost use Rattle.kap_server.specs.Nets.{HoldsNetOfSamples};
ghost use Rattle.kap_server.specs.Readying.{is_pattern_refused};
ghost use Rattle.kap_server.specs.Words.{pairs_of};

use crate::options::{capacity_of, no_options};
use crate::readying::{Ready, add_tasks};
use crate::status::Status;
use crate::ways::way_of;
use flow_core::Net;
use kap_base::{NoMemory, TASK_LIMIT};
use kap_io::{Failed, Gate, Sink, write_all};
use lambda_types::Patterns;
use net_run::NumberingNode;
use node_set::ScriptNode;
use sample_points::SAMPLE_LIMIT;
use sample_replay::{SampleFault, Summary, summarize, write_samples};
use std::alloc::Global;
use std::thread::Threads;

/// Writes the sample recording of so many points.
pub(crate) fn write_recording<K: Sink>(alloc: Global, count: u64, out: &mut K) -> Status
    requires { count ≤ SAMPLE_LIMIT }
    ensures written { WritesText (sample_text count) result
        (K.written out.old) (K.written out.new) }
    ensures write_fault { result ≡ Status.WriteFault
        → HasRisen (K.faults out.old) (K.faults out.new) }
{
    match write_samples(alloc, count, out) {
        Ok(()) => Status::Ok,
        Err(SampleFault::WriteFault) => Status::WriteFault,
        Err(SampleFault::NoMemory) => Status::NoMemory,
    }
}

/// Writes a text.
fn write_text<K: Sink>(out: &mut K, text: &[u8]) -> Status
    ensures written { WritesText text.now result (K.written out.old) (K.written out.new) }
    ensures write_fault { result ≡ Status.WriteFault
        → HasRisen (K.faults out.old) (K.faults out.new) }
{
    match write_all(out, text) {
        Ok(()) => Status::Ok,
        Err(Failed) => Status::WriteFault,
    }
}

/// Writes the summary of what the tasks of these words make of the sample recording of so many points, by
/// workers.
pub(crate) fn write_summary<
    K: Sink,
    P: Patterns,
    N: ScriptNode + NumberingNode + Send,
    G: Gate + Sync,
    R: Threads + Sync,
>(
    rt: &R,
    alloc: Global,
    count: u64,
    words: &[String],
    out: &mut K,
    pats: &mut P,
    gate: &G,
    ran: &mut Option<Net<N>>,
) -> Status
    requires count { count ≤ SAMPLE_LIMIT }
    requires few { length (pairs_of (map string_bytes words.now)) ≤ TASK_LIMIT }
    ensures summed { Summed N.answer N.planned (P.refused pats.new) count
        (pairs_of (map string_bytes words.now)) result
        (K.written out.old) (K.written out.new) }
    ensures net { result ≡ Status.Ok → HoldsNetOfSamples N.Node N.planned
        (pairs_of (map string_bytes words.now)) count ran.new }
    ensures none { result ≢ Status.Ok → ran.new ≡ ran.old }
    ensures write_fault { result ≡ Status.WriteFault
        → HasRisen (K.faults out.old) (K.faults out.new) }
    ensures rose { is_pattern_refused result ≡ true
        → HasRisen (P.refusals pats.old) (P.refusals pats.new) }
{
    let mut ready: Ready<N> = Ready {
        names: Vec::new(alloc),
        plans: Vec::new(alloc),
        changes: false,
    };
    match add_tasks(alloc, 1, words, &mut ready, pats) {
        Ok(()) => {
            let Ready { names, plans, .. } = ready;
            let options = no_options();
            let way = way_of(rt, gate, options, plans.len());
            match summarize(alloc, count, &names, plans, capacity_of(options), &way) {
                Ok(Summary { text, net }) => match write_text(out, text.as_slice()) {
                    Status::Ok => {
                        *ran = Some(net);
                        Status::Ok
                    }
                    status => status,
                },
                Err(NoMemory) => Status::NoMemory,
            }
        }
        Err(status) => status,
    }
}
