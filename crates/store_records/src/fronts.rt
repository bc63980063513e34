//! What stands at the front of bytes, lent where it is a byte string.

ghost use Rattle.std.specs.Prelude.{◌≡◌, None, Some, IfOk, IfSome, IsTrue, MatchOption, if◌then◌else◌};
ghost use Rattle.std.specs.Int.{w32};
ghost use Rattle.std.specs.Option.{option_map};
ghost use Rattle.kap_base.specs.Texts.{is_line};
ghost use Rattle.state_code.specs.Spelling.{read_bytes, read_number, value_then};
ghost use Rattle.store_records.specs.Lines.{read_names};

use kap_base::{NoMemory, Text, TextFault};
use std::alloc::Global;

/// The number of 4 bytes, the highest first, and the bytes behind it.
#[tactic(auto, unfolding(state_code::specs::Spelling::read_number))]
pub(crate) fn number_front(bytes: &[u8]) -> Option<(u32, &[u8])>
    ensures { MatchOption result (read_number w32 bytes.now ≡ None)
        (λ parts. read_number w32 bytes.now ≡ value_then parts.0 parts.1.now) }
{
    if bytes.len() < 4 {
        return None;
    }
    let (front, rest) = bytes.split_at(4);
    let number = u32::from_be_bytes([front[0], front[1], front[2], front[3]]);
    Some((number, rest))
}

/// The byte string, and the bytes behind it.
#[tactic(auto, unfolding(state_code::specs::Spelling::read_bytes))]
pub(crate) fn bytes_front(bytes: &[u8]) -> Option<(&[u8], &[u8])>
    ensures { MatchOption result (read_bytes bytes.now ≡ None)
        (λ parts. read_bytes bytes.now ≡ value_then parts.0.now parts.1.now) }
{
    let Some((count, rest)) = number_front(bytes) else {
        return None;
    };
    let len = count as usize;
    if rest.len() < len {
        return None;
    }
    Some(rest.split_at(len))
}

/// The text of these bytes, where they are UTF-8 and hold no line feed.
fn line_text(alloc: Global, bytes: &[u8]) -> Result<Option<Text>, NoMemory>
    ensures { IfOk result (λ text. text ≡ (if is_line bytes.now then Some bytes.now else None)) }
{
    match Text::from_bytes(alloc, bytes) {
        Ok(text) => {
            if text.is_line() {
                Ok(Some(text))
            } else {
                Ok(None)
            }
        }
        Err(TextFault::NotUtf8) => Ok(None),
        Err(TextFault::NoMemory) => Err(NoMemory),
    }
}

/// The database and the policy of a batch, and the bytes behind them.
#[derive(Drop)]
pub(crate) struct NamesFront<'a> {
    pub(crate) db: Text,
    pub(crate) rp: Text,
    pub(crate) rest: &'a [u8],
}

/// The database and the policy, and the bytes behind them, where neither has a line feed.
pub(crate) fn names_front(alloc: Global, bytes: &[u8]) -> Result<Option<NamesFront>, NoMemory>
    ensures names { IfOk result (λ front.
        option_map (λ f. ((f.db, f.rp), f.rest.now)) front ≡ read_names bytes.now) }
    ensures lines { IfOk result (λ front. IfSome front (λ f.
        IsTrue (is_line f.db) × IsTrue (is_line f.rp))) }
{
    let Some((first, behind)) = bytes_front(bytes) else {
        return Ok(None);
    };
    let Some((second, rest)) = bytes_front(behind) else {
        return Ok(None);
    };
    let Some(db) = line_text(alloc, first)? else {
        return Ok(None);
    };
    let Some(rp) = line_text(alloc, second)? else {
        return Ok(None);
    };
    Ok(Some(NamesFront { db, rp, rest }))
}
