//! All of the input is read.

ghost use Rattle.std.specs.Prelude.{◌≡◌, ◌⊎◌, ◌≤◌, Err, IfErr, IfOk};
ghost use Rattle.kap_base.specs.Words.{HasRisen};
ghost use Rattle.recording_file.specs.Reading.{HasEnded};
ghost use Rattle.kap_server.specs.ReadingIn.{IsAll, IsBeyond, IsWithin, ReadsWithin};

use crate::status::Status;
use kap_base::Bytes;
use kap_io::{Failed, Source};
use std::alloc::Global;

/// How many bytes are asked of the input at once.
const PIECE: usize = 4_096;

/// Reads all that the input gives, where that is no more than so many bytes.
pub(crate) fn read_all<S: Source>(
    alloc: Global,
    limit: usize,
    input: &mut S,
) -> Result<Bytes, Status>
    ensures all { IfOk result (λ text. IsWithin limit text × IsAll (S.left input.old) text) }
    ensures ended { IfOk result (λ text. HasEnded (S.left input.old) (S.left input.new)) }
    ensures err { IfErr result (λ s. (s ≡ Status.TooLong)
        ⊎ ((s ≡ Status.ReadFault) ⊎ (s ≡ Status.NoMemory))) }
    ensures long { result ≡ Err Status.TooLong → IsBeyond limit (S.left input.old) }
    ensures few { result ≡ Err Status.ReadFault
        → ReadsWithin limit (S.left input.old) (S.left input.new) }
    ensures rose { result ≡ Err Status.ReadFault
        → HasRisen (S.faults input.old) (S.faults input.new) }
    ensures later { S.faults input.old ≤ S.faults input.new }
{
    let mut piece = [0; PIECE];
    let mut text = Bytes::new(alloc);
    'reading: loop {
        let count = match input.read(&mut piece) {
            Ok(count) => count,
            Err(Failed) => return Err(Status::ReadFault),
        };
        if count == 0 {
            return Ok(text);
        }
        if limit - text.len() < count {
            return Err(Status::TooLong);
        }
        let (front, _) = piece.split_at(count);
        if text.append(front).is_err() {
            return Err(Status::NoMemory);
        }
    }
}
