//! What the bytes at a gate tell.

ghost use Rattle.std.specs.Prelude.{◌≡◌, ◌<◌, ◌-◌, length, min};
ghost use Rattle.gate_log.specs.Marks.{MarkOf};

/// What stands at a gate.
pub(crate) enum Mark {
    /// The log's end.
    Closed,
    /// A record, with the next gate at this offset.
    Open(u64),
    /// A record that runs past the end of the file, or whose next gate does.
    Torn,
}

/// The byte of an open gate.
pub(crate) const OPEN: u8 = 0xA5;

/// The byte of a closed gate; any other than `OPEN` is closed too.
pub(crate) const CLOSED: u8 = 0;

/// What stands at a gate, by its byte and the four behind it, as far as the file has them.
#[tactic(auto, unfolding(crate::specs::Bodies::size_bytes))]
pub(crate) fn mark_of(head: &[u8], gate: u64, size: u64) -> Mark
    requires some { gate < size }
    requires length { length head.now ≡ min 5 (size - gate) }
    ensures { MarkOf head.now gate size result }
{
    match head {
        [OPEN, a, b, c, d] => {
            let length = u32::from_be_bytes([*a, *b, *c, *d]);
            match gate.checked_add(5 + length as u64) {
                Some(next) if next < size => Mark::Open(next),
                _ => Mark::Torn,
            }
        }
        [OPEN, ..] => Mark::Torn,
        _ => Mark::Closed,
    }
}
