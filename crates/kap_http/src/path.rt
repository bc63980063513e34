//! Targets: their path, part by part, and where it leads.

ghost use Rattle.std.specs.Prelude.{◌≡◌, ◌≤◌, IfSome, length, option_map, position};
ghost use Rattle.std.specs.List.{list_any, position_or_len};
ghost use Rattle.percent_encoding.specs.Percent.{percent_decode};
ghost use Rattle.kap_http.specs.Paths.{is_part, is_question, is_slash, leads_to_write, limit_of, path_of, query_of, way_of};
ghost use Rattle.kap_http.specs.Walks.{ends, ends_or_one, only_part, strip, strip_both, walk, walk_version};

use crate::limits::{BODY_LIMIT, WRITE_LIMIT};
use percent_encoding::percent_decode;

/// Where a path leads.
#[derive(Clone, Copy, Debug, PartialEq, Eq)]
pub(crate) enum Place {
    /// `/kapacitor/v1/ping`.
    Ping,
    /// `/kapacitor/v1/write`, and `/write`.
    Write,
    /// `/kapacitor/v1/tasks`.
    Tasks,
    /// `/kapacitor/v1/tasks/ID`.
    Task,
    /// `/kapacitor/v1/alerts/topics`.
    Topics,
    /// `/kapacitor/v1/alerts/topics/NAME`.
    Topic,
}

/// Whether the bytes, with their escapes replaced, are the word.
fn decodes_to(bytes: &[u8], word: &[u8]) -> bool
    ensures { result ≡ is_part word.now bytes.now }
{
    let mut left = word;
    'bytes: for byte in percent_decode(bytes) {
        match left.split_first() {
            Some((next, behind)) if *next == byte => left = behind,
            _ => return false,
        }
    }
    left.is_empty()
}

fn slash_place(path: &[u8]) -> Option<usize>
    ensures { result ≡ position is_slash path.now }
{
    path.iter().position(|b| *b == b'/')
}

fn question_place(target: &[u8]) -> Option<usize>
    ensures { result ≡ position is_question target.now }
{
    target.iter().position(|b| *b == b'?')
}

fn has_slash(bytes: &[u8]) -> bool
    ensures { result ≡ list_any is_slash bytes.now }
{
    bytes.iter().any(|b| *b == b'/')
}

/// Where the first part of a path ends.
#[tactic(auto, using(kap_base::proofs::PositionLaws::place_le, kap_base::proofs::PositionLaws::none_place))]
fn part_len(path: &[u8]) -> usize
    ensures place { result ≡ position_or_len is_slash path.now }
    ensures within { result ≤ length path.now }
{
    match slash_place(path) {
        Some(at) => at,
        None => path.len(),
    }
}

/// The path behind its first part, where that is the word.
fn strip<'a>(path: &'a [u8], word: &[u8]) -> Option<&'a [u8]>
    ensures rest { option_map (λ rest. rest.now) result ≡ strip word.now path.now }
    ensures len { IfSome result (λ rest. length rest.now ≤ length path.now) }
{
    let Some((b'/', rest)) = path.split_first() else {
        return None;
    };
    let (part, behind) = rest.split_at(part_len(rest));
    if decodes_to(part, word) {
        Some(behind)
    } else {
        None
    }
}

/// The path behind two parts, where those are the words.
fn strip_both<'a>(path: &'a [u8], first: &[u8], second: &[u8]) -> Option<&'a [u8]>
    ensures rest { option_map (λ rest. rest.now) result
        ≡ strip_both first.now second.now path.now }
    ensures len { IfSome result (λ rest. length rest.now ≤ length path.now) }
{
    let rest = strip(path, first)?;
    strip(rest, second)
}

/// A place, where nothing is behind it.
fn ends(path: &[u8], place: Place) -> Option<(Place, &[u8])>
    ensures way { option_map (λ w. (w.0, w.1.now)) result ≡ ends place path.now }
    ensures len { IfSome result (λ w. length w.1.now ≤ length path.now) }
{
    if path.is_empty() {
        Some((place, path))
    } else {
        None
    }
}

/// The one part of a path, which may be empty.
fn only_part(path: &[u8]) -> Option<&[u8]>
    ensures part { option_map (λ part. part.now) result ≡ only_part path.now }
    ensures len { IfSome result (λ part. length part.now ≤ length path.now) }
{
    let Some((b'/', part)) = path.split_first() else {
        return None;
    };
    if has_slash(part) { None } else { Some(part) }
}

/// The place of all where nothing is behind it, or of the one that the part behind it names.
fn ends_or_one(path: &[u8], all: Place, one: Place) -> Option<(Place, &[u8])>
    ensures way { option_map (λ w. (w.0, w.1.now)) result ≡ ends_or_one all one path.now }
    ensures len { IfSome result (λ w. length w.1.now ≤ length path.now) }
{
    if path.is_empty() {
        return Some((all, path));
    }
    let name = only_part(path)?;
    Some((one, name))
}

/// Where the path behind `/kapacitor/v1` leads.
fn walk_version(path: &[u8]) -> Option<(Place, &[u8])>
    ensures way { option_map (λ w. (w.0, w.1.now)) result ≡ walk_version path.now }
    ensures len { IfSome result (λ w. length w.1.now ≤ length path.now) }
{
    if let Some(rest) = strip(path, b"ping") {
        return ends(rest, Place::Ping);
    }
    if let Some(rest) = strip(path, b"write") {
        return ends(rest, Place::Write);
    }
    if let Some(rest) = strip(path, b"tasks") {
        return ends_or_one(rest, Place::Tasks, Place::Task);
    }
    let rest = strip_both(path, b"alerts", b"topics")?;
    ends_or_one(rest, Place::Topics, Place::Topic)
}

#[tactic(auto, unfolding(crate::specs::Walks::walk))]
fn walk(path: &[u8]) -> Option<(Place, &[u8])>
    ensures way { option_map (λ w. (w.0, w.1.now)) result ≡ walk path.now }
    ensures len { IfSome result (λ w. length w.1.now ≤ length path.now) }
{
    if let Some(rest) = strip(path, b"write") {
        return ends(rest, Place::Write);
    }
    let rest = strip_both(path, b"kapacitor", b"v1")?;
    walk_version(rest)
}

/// Where a path leads, and the part that names a task or a topic there, with its escapes; it is empty
/// elsewhere.
#[tactic(auto, using(crate::proofs::WalkLaws::walk_is))]
pub(crate) fn way_of(path: &[u8]) -> Option<(Place, &[u8])>
    ensures way { option_map (λ w. (w.0, w.1.now)) result ≡ way_of path.now }
    ensures len { IfSome result (λ w. length w.1.now ≤ length path.now) }
{
    walk(path)
}

/// The path of a target: what stands before its first question mark.
#[tactic(auto, using(kap_base::proofs::PositionLaws::none_place))]
pub(crate) fn path_of(target: &[u8]) -> &[u8]
    ensures path { result.now ≡ path_of target.now }
    ensures len { length result.now ≤ length target.now }
{
    match question_place(target) {
        Some(at) => &target[..at],
        None => target,
    }
}

/// The query of a target: what stands behind its first question mark.
#[tactic(auto, using(kap_base::proofs::PositionLaws::none_place))]
pub(crate) fn query_of(target: &[u8]) -> &[u8]
    ensures query { result.now ≡ query_of target.now }
    ensures len { length result.now ≤ length target.now }
{
    match question_place(target) {
        Some(at) => &target[at + 1..],
        None => b"",
    }
}

fn leads_to_write(path: &[u8]) -> bool
    ensures { result ≡ leads_to_write (way_of path.now) }
{
    match way_of(path) {
        Some((Place::Write, _)) => true,
        _ => false,
    }
}

/// The most bytes that a body of a request to this target may have.
pub(crate) fn limit_of(target: &[u8]) -> u64
    ensures { result ≡ limit_of target.now }
{
    if leads_to_write(path_of(target)) {
        WRITE_LIMIT
    } else {
        BODY_LIMIT
    }
}
