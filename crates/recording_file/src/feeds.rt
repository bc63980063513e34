ghost use Rattle.std.specs.Prelude.{◌≡◌, ◌+◌, ◌<◌, ◌≤◌, ◌++◌, List, ℕ, IsTrue, not, length, take};
ghost use Rattle.std.specs.Bool.{OnTrue};
ghost use Rattle.std.specs.List.{position_or_len};
ghost use Rattle.kap_base.specs.Texts.{has_line_feed};
ghost use Rattle.line_points.specs.Body.{without_return};
ghost use Rattle.recording_file.specs.Feeds.{ShowFeeds};
ghost use Rattle.recording_file.specs.Lines.{is_feed};

use kap_base::are_same;
use line_points::without_return;
use memchr::{memchr, memrchr};

/// Where the first line feed stands in the bytes, none of which stands in their first `searched`; their
/// length where there is none.
pub fn line_end(bytes: &[u8], searched: usize) -> usize
    requires within { searched ≤ length bytes.now }
    requires searched { searched ≤ position_or_len is_feed bytes.now }
    ensures end { result ≡ position_or_len is_feed bytes.now }
    ensures bound { result ≤ length bytes.now }
{
    let (_, rest) = bytes.split_at(searched);
    match memchr(b'\n', rest) {
        Some(at) => searched + at,
        None => bytes.len(),
    }
}

/// Whether the bytes begin with this text, which has no line feed, and a line feed behind it; false where a
/// carriage return ends the text.
pub fn begins_line(bytes: &[u8], text: &[u8]) -> bool
    requires within { length text.now < length bytes.now }
    requires text { IsTrue (not (has_line_feed text.now)) }
    ensures same { OnTrue result
        (without_return (take (length text.now) bytes.now) ≡ text.now) }
    ensures end { OnTrue result (length text.now ≡ position_or_len is_feed bytes.now) }
{
    let (line, _) = bytes.split_at(text.len());
    if bytes[text.len()] != b'\n' {
        return false;
    }
    are_same(without_return(line), text)
}

/// How many bytes stand before and in each of the last three line feeds that were read; 0 where there is
/// none.
#[derive(Clone, Copy)]
pub struct LastFeeds {
    pub last: u64,
    pub second: u64,
    pub third: u64,
}

impl LastFeeds {
    /// Where there are none.
    pub fn none() -> LastFeeds
        ensures { (passed : ℕ) (bytes : List ℕ) → ShowFeeds passed bytes result }
    {
        LastFeeds {
            last: 0,
            second: 0,
            third: 0,
        }
    }
}

/// Those of the piece, before which so many bytes stand, and then those that are known.
pub fn last_feeds(piece: &[u8], start: u64, known: LastFeeds) -> LastFeeds
    ensures { (passed : ℕ) (bytes : List ℕ) → start ≤ passed + length bytes
        → ShowFeeds passed bytes known → ShowFeeds passed (bytes ++ piece.now) result }
{
    let Some(last) = memrchr(b'\n', piece) else {
        return known;
    };
    let (rest, _) = piece.split_at(last);
    let Some(second) = memrchr(b'\n', rest) else {
        return LastFeeds {
            last: behind(start, last),
            second: known.last,
            third: known.second,
        };
    };
    let (rest, _) = rest.split_at(second);
    let Some(third) = memrchr(b'\n', rest) else {
        return LastFeeds {
            last: behind(start, last),
            second: behind(start, second),
            third: known.last,
        };
    };
    LastFeeds {
        last: behind(start, last),
        second: behind(start, second),
        third: behind(start, third),
    }
}

/// How many bytes stand before and in the byte at a place of a piece, before which so many bytes stand.
fn behind(start: u64, at: usize) -> u64
    ensures { result ≤ start + at + 1 }
{
    start.saturating_add(at as u64).saturating_add(1)
}
