//! Which words are those of a service.

ghost use Rattle.std.specs.Prelude.{◌≡◌, is_some, map, string_bytes};
ghost use Rattle.serve_words.specs.ServeLines.{is_address, is_serve_line, is_whole, nothing_seen, seen_in, with_addr, with_idle, with_seats, with_single, with_value};

use word_numbers::number_within;

/// How many seats there are at most.
pub(crate) const SEAT_LIMIT: u32 = 64;

/// How many seconds a link may be idle at most.
pub(crate) const IDLE_LIMIT: u32 = 3_600;

/// Which options were given.
#[derive(Clone, Copy)]
struct Seen {
    addr: bool,
    seats: bool,
    idle: bool,
    single: bool,
}

/// Whether it may name an address: it isn't empty, and doesn't begin as an option does.
fn is_address(word: &[u8]) -> bool
    ensures { result ≡ is_address word.now }
{
    match word {
        [] => false,
        [b'-', ..] => false,
        _ => true,
    }
}

fn with_addr(seen: Seen, value: &str) -> Option<Seen>
    ensures { result ≡ with_addr seen value.now }
{
    if seen.addr || !is_address(value.as_bytes()) {
        return None;
    }
    Some(Seen {
        addr: true,
        seats: seen.seats,
        idle: seen.idle,
        single: seen.single,
    })
}

fn with_seats(seen: Seen, value: &str) -> Option<Seen>
    ensures { result ≡ with_seats seen value.now }
{
    if seen.seats || number_within(1, SEAT_LIMIT, value).is_none() {
        return None;
    }
    Some(Seen {
        addr: seen.addr,
        seats: true,
        idle: seen.idle,
        single: seen.single,
    })
}

fn with_idle(seen: Seen, value: &str) -> Option<Seen>
    ensures { result ≡ with_idle seen value.now }
{
    if seen.idle || number_within(1, IDLE_LIMIT, value).is_none() {
        return None;
    }
    Some(Seen {
        addr: seen.addr,
        seats: seen.seats,
        idle: true,
        single: seen.single,
    })
}

fn with_single(seen: Seen) -> Option<Seen>
    ensures { result ≡ with_single seen }
{
    if seen.single {
        return None;
    }
    Some(Seen {
        addr: seen.addr,
        seats: seen.seats,
        idle: seen.idle,
        single: true,
    })
}

/// With the option of this name and this value, where it is one and wasn't given before.
fn with_value(seen: Seen, name: &str, value: &str) -> Option<Seen>
    ensures { result ≡ with_value seen name.now value.now }
{
    if name == "--addr" {
        with_addr(seen, value)
    } else if name == "--seats" {
        with_seats(seen, value)
    } else if name == "--idle" {
        with_idle(seen, value)
    } else {
        None
    }
}

/// With all options of the words, each with its value.
fn seen_in(seen: Seen, words: &[String]) -> Option<Seen>
    ensures { result ≡ seen_in seen (map string_bytes words.now) }
{
    let Some((word, rest)) = words.split_first() else {
        return Some(seen);
    };
    if word.as_str() == "--single" {
        return seen_in(with_single(seen)?, rest);
    }
    let (value, behind) = rest.split_first()?;
    seen_in(with_value(seen, word.as_str(), value.as_str())?, behind)
}

/// Whether an address is given, and not both seats and `--single`.
fn is_whole(seen: Seen) -> bool
    ensures { result ≡ is_whole seen }
{
    seen.addr && !(seen.seats && seen.single)
}

fn none_seen() -> Seen
    ensures { result ≡ nothing_seen }
{
    Seen {
        addr: false,
        seats: false,
        idle: false,
        single: false,
    }
}

/// Whether the words are those of a service: its options, each at most once, in any order. They are `--addr`
/// with HOST:PORT, which must be there; `--seats` with a number from 1 to 64, or `--single`, which stands
/// alone; and `--idle` with a number of seconds from 1 to 3,600. A number has decimal digits without a sign or
/// a leading zero.
pub fn is_serve_line(words: &[String]) -> bool
    ensures { result ≡ is_serve_line (map string_bytes words.now) }
{
    match seen_in(none_seen(), words) {
        Some(seen) => is_whole(seen),
        None => false,
    }
}
