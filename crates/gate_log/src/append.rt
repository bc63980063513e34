//! What is written for one more record.

ghost use Rattle.std.specs.Prelude.{◌≡◌, ◌∷◌, ◌++◌, [], ◌+◌, ◌<◌, ◌^◌, List, ℕ, length, IfOk, OnOk, IsTrue};
ghost use Rattle.kap_io.specs.Causes.{HasCause};
ghost use Rattle.kap_io.specs.Disk.{Elsewhere, On, OnlyIn, Torn, overwritten};
ghost use Rattle.kap_io.specs.Moments.{Moments};
ghost use Rattle.gate_log.specs.Bodies.{IsBeforeOrAfter, size_bytes};
ghost use Rattle.gate_log.specs.Logs.{IsAdded, IsReady};

use crate::mark::{CLOSED, OPEN};
use kap_io::{Disk, Failed, Part};
use std::alloc::{AllocError, Global};

/// A length as four bytes, the high one first.
#[tactic(auto, unfolding(crate::specs::Bodies::size_bytes))]
fn size_of(size: u32) -> [u8; 4]
    ensures { result ≡ size_bytes size }
{
    size.to_be_bytes()
}

/// A body behind its length, and the closed gate behind it.
pub(crate) fn piece_of(alloc: Global, body: &[u8]) -> Result<Vec<u8>, AllocError>
    requires { length body.now < 2 ^ 32 }
    ensures { IfOk result (λ piece. piece.items
        ≡ size_bytes (length body.now) ++ body.now ++ 0 ∷ []) }
{
    let size = size_of(body.len() as u32);
    let mut piece = Vec::with_capacity(alloc, size.len() + body.len() + 1)?;
    piece.extend_from_slice(&size)?;
    piece.extend_from_slice(body)?;
    piece.push(CLOSED)?;
    Ok(piece)
}

/// Writes, and syncs. A crash at any moment leaves the file as it was, or with the write cut short.
pub(crate) fn write_synced<D: Disk>(
    disk: &mut D,
    part: Part,
    at: u64,
    piece: &[u8],
) -> Result<(), Failed>
    ensures written { IsTrue D.tells
        → OnOk result (D.seen disk.new part ≡ overwritten at piece.now (D.seen disk.old part)) }
    ensures durable { IsTrue D.tells
        → OnOk result (OnlyIn part (D.seen disk.new part) (D.may_leave disk.new)) }
    ensures elsewhere { IsTrue D.tells → Elsewhere part (D.seen disk.old) (D.seen disk.new) }
    ensures any_moment { IsTrue D.tells → Moments D.moment D.may_leave D.left_since
        disk.old disk.new (On part (Torn at (length piece.now))) }
    ensures cause { HasCause (D.faults disk.old) (D.faults disk.new) result }
{
    disk.write_at(part, at, piece)?;
    disk.sync(part)
}

/// Writes a record behind the closed gate, and opens the gate when the record is on the disk. A crash at any
/// moment leaves the log with the record or without.
pub(crate) fn add_record<D: Disk>(
    disk: &mut D,
    part: Part,
    gate: u64,
    piece: &[u8],
) -> Result<(), Failed>
    requires { gate + 1 < 2 ^ 64 }
    ensures done { IsTrue D.tells → (bodies : List (List ℕ)) (body : List ℕ)
        → IsReady bodies body part gate piece.now (D.seen disk.old) (D.may_leave disk.old)
        → OnOk result (IsAdded (bodies ++ body ∷ []) part (D.seen disk.new) (D.may_leave disk.new)) }
    ensures any_moment { IsTrue D.tells → (bodies : List (List ℕ)) (body : List ℕ)
        → IsReady bodies body part gate piece.now (D.seen disk.old) (D.may_leave disk.old)
        → Moments D.moment D.may_leave D.left_since disk.old disk.new
        (On part (λ _ file. IsBeforeOrAfter bodies body file)) }
    ensures elsewhere { IsTrue D.tells → Elsewhere part (D.seen disk.old) (D.seen disk.new) }
    ensures cause { HasCause (D.faults disk.old) (D.faults disk.new) result }
{
    write_synced(disk, part, gate + 1, piece)?;
    write_synced(disk, part, gate, &[OPEN])?;
    Ok(())
}
