//! The sample recording is written.

ghost use Rattle.std.specs.Prelude.{◌≡◌, ◌≤◌, ◌<◌, ◌++◌, Err, IfOk, OnErr, OnOk};
ghost use Rattle.std.specs.Io.KnownBytes.{Appends};
ghost use Rattle.kap_base.specs.Words.{HasRisen};
ghost use Rattle.kap_io.specs.Pieces.{AppendsPrefix};
ghost use Rattle.recording_file.specs.Printed.{record_text};
ghost use Rattle.sample_points.specs.Samples.{sample_of, sample_text};

use crate::fault::SampleFault;
use kap_base::{Bytes, NoMemory};
use kap_io::{Sink, write_all};
use recording_file::print_record;
use sample_points::{SAMPLE_LIMIT, sample_point};
use std::alloc::Global;

/// How many records are made ready before they are written.
const RECORDS_A_PIECE: u64 = 1_024;

/// Adds the record of the point of a number.
fn put_record(alloc: Global, number: u64, text: &mut Bytes) -> Result<(), NoMemory>
    requires { number ≤ SAMPLE_LIMIT }
    ensures { OnOk result (text.new ≡ text.old ++ record_text (sample_of number)) }
{
    let point = sample_point(alloc, number)?;
    let record = print_record(alloc, &point)?;
    text.append(record.as_slice())
}

/// The records of the points of the numbers behind `from`, up to `to`.
fn records_behind(alloc: Global, from: u64, to: u64) -> Result<Bytes, NoMemory>
    requires order { from ≤ to }
    requires limit { to ≤ SAMPLE_LIMIT }
    ensures { IfOk result (λ text. sample_text to ≡ sample_text from ++ text) }
{
    let mut text = Bytes::new(alloc);
    'recording: for number in from..to {
        put_record(alloc, number + 1, &mut text)?;
    }
    Ok(text)
}

/// Writes the sample recording of so many points, 1,000,000 at most: the three lines of each, in the order of
/// their numbers from 1 on. WriteFault comes only where the output counted a fault in this call. After an
/// `Err` a prefix of the recording is written.
pub fn write_samples<K: Sink>(alloc: Global, count: u64, out: &mut K) -> Result<(), SampleFault>
    requires { count ≤ SAMPLE_LIMIT }
    ensures ok { OnOk result
        (Appends (K.written out.old) (K.written out.new) (sample_text count)) }
    ensures err { OnErr result
        (AppendsPrefix (K.written out.old) (K.written out.new) (sample_text count)) }
    ensures cause { result ≡ Err SampleFault.WriteFault
        → HasRisen (K.faults out.old) (K.faults out.new) }
    ensures later { K.faults out.old ≤ K.faults out.new }
{
    let mut done = 0;
    'writing: while done < count {
        let next = count.min(done + RECORDS_A_PIECE);
        let text = records_behind(alloc, done, next)?;
        write_all(out, text.as_slice())?;
        done = next;
    }
    Ok(())
}
