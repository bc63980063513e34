//! The lines of a head.

ghost use Rattle.std.specs.Prelude.{◌≡◌, ◌≤◌, false, length, option_map, take};
ghost use Rattle.httparse.specs.Grammar.{HasNoRequest};
ghost use Rattle.kap_http.specs.Lines.{begins_empty, behind_feed, behind_lines, has_empty_line, has_more_lines, skip_newlines};

use crate::limits::FIELD_LIMIT;

/// The bytes behind the first line feed.
fn behind_feed(bytes: &[u8]) -> Option<&[u8]>
    ensures { option_map (λ rest. rest.now) result ≡ behind_feed bytes.now }
{
    let mut rest = bytes;
    'bytes: while let Some((byte, behind)) = rest.split_first() {
        if *byte == b'\n' {
            return Some(behind);
        }
        rest = behind;
    }
    None
}

/// The bytes behind so many lines.
#[tactic(auto, using(crate::proofs::LineLaws::lines_step, crate::proofs::LineLaws::lines_stop), unfolding(crate::specs::Lines::behind_lines))]
fn behind_lines(count: usize, bytes: &[u8]) -> Option<&[u8]>
    ensures { option_map (λ rest. rest.now) result ≡ behind_lines count bytes.now }
{
    let mut left = count;
    let mut rest = bytes;
    'lines: while 0 < left {
        rest = behind_feed(rest)?;
        left -= 1;
    }
    Some(rest)
}

/// The bytes from the first one on that doesn't end a line.
fn skip_newlines(bytes: &[u8]) -> &[u8]
    ensures { result.now ≡ skip_newlines bytes.now }
{
    let mut rest = bytes;
    'newlines: while let Some((b'\r' | b'\n', behind)) = rest.split_first() {
        rest = behind;
    }
    rest
}

/// Whether bytes of a head go on behind its first line and as many fields as it may have, and no empty line
/// begins there.
#[tactic(auto, unfolding(crate::specs::Lines::has_more_lines))]
pub(crate) fn has_more_lines(bytes: &[u8]) -> bool
    ensures { result ≡ has_more_lines bytes.now }
{
    match behind_lines(FIELD_LIMIT + 1, skip_newlines(bytes)) {
        Some([]) | Some([b'\r']) | None => false,
        Some(_) => true,
    }
}

/// Whether an empty line stands at the front.
fn begins_empty(bytes: &[u8]) -> bool
    ensures { result ≡ begins_empty bytes.now }
{
    match bytes.split_first() {
        Some((b'\n', _)) => true,
        Some((b'\r', behind)) => behind.first() == Some(&b'\n'),
        _ => false,
    }
}

/// Whether an empty line stands behind some line feed.
fn holds_empty_line(bytes: &[u8]) -> bool
    ensures { result ≡ has_empty_line bytes.now }
{
    let mut rest = bytes;
    'bytes: while let Some((byte, behind)) = rest.split_first() {
        if *byte == b'\n' && begins_empty(behind) {
            return true;
        }
        rest = behind;
    }
    false
}

/// The same of bytes whose front has none, by what is new and the two bytes before it.
#[tactic(auto, using(crate::proofs::EmptyLaws::line_behind))]
fn empty_line_behind(bytes: &[u8], seen: usize) -> bool
    requires within { seen ≤ length bytes.now }
    requires none { has_empty_line (take seen bytes.now) ≡ false }
    ensures { result ≡ has_empty_line bytes.now }
{
    let (_, new) = bytes.split_at(seen.saturating_sub(2));
    holds_empty_line(new)
}

/// Whether an empty line stands behind some line feed. Where none does, no whole head stands in the bytes:
/// who reads a head that comes in many pieces looks for it, and calls `read_head` once it is there, or
/// `HEAD_LIMIT` bytes are. The first `seen` bytes are known to have none, so that each byte is looked at
/// once.
#[tactic(auto, using(crate::proofs::EmptyLaws::no_head))]
pub fn has_empty_line(bytes: &[u8], seen: usize) -> bool
    requires within { seen ≤ length bytes.now }
    requires none { has_empty_line (take seen bytes.now) ≡ false }
    ensures line { result ≡ has_empty_line bytes.now }
    ensures none { result ≡ false → HasNoRequest bytes.now }
{
    empty_line_behind(bytes, seen)
}
