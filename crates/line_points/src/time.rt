ghost use Rattle.std.specs.Prelude.{◌≡◌, ℕ, Bool, IfSome, drop};
ghost use Rattle.std.specs.List.{list_all, before_first, position_or_len};
ghost use Rattle.line_points.specs.Parts.{is_space};
ghost use Rattle.line_points.specs.Cap.{cap, parts};
ghost use Rattle.line_points.specs.Line.{time_of_units, word_time, time_of};

use crate::bytes::byte_place;
use crate::fault::LineFault;
use crate::mode::{Mode, Unit};
use crate::number::{Number, read_number};
use kap_base::TIME_LIMIT;

fn time_of_units(unit: Unit, number: Number) -> Result<i64, LineFault>
    ensures { (n : Bool × ℕ) → parts number ≡ cap n → result ≡ time_of_units unit n }
{
    let distance = u128::from(number.magnitude) * u128::from(unit.nanoseconds());
    if distance > u128::from(TIME_LIMIT) {
        return Err(LineFault::TimeRange);
    }
    let time = distance as i64;
    Ok(if number.negative { -time } else { time })
}

/// The bytes before the first space, and those from it on.
fn split_at_space(bytes: &[u8]) -> (&[u8], &[u8])
    ensures word { result.0.now ≡ before_first is_space bytes.now }
    ensures rest { result.1.now ≡ drop (position_or_len is_space bytes.now) bytes.now }
{
    match byte_place(bytes, b' ') {
        Some(at) => bytes.split_at(at),
        None => (bytes, &[]),
    }
}

fn are_spaces(bytes: &[u8]) -> bool
    ensures { result ≡ list_all is_space bytes.now }
{
    bytes.iter().all(|b| *b == b' ')
}

fn word_time(mode: &Mode, word: &[u8]) -> Result<i64, LineFault>
    ensures { result ≡ word_time mode.now word.now }
{
    match read_number(word) {
        Some(number) => time_of_units(mode.unit(), number),
        None => Err(LineFault::Time),
    }
}

/// The time of a line, of which these bytes stand behind its fields, where they are a number and nothing
/// else.
fn number_time(mode: &Mode, bytes: &[u8]) -> Option<Result<i64, LineFault>>
    ensures { IfSome result (λ time. time ≡ time_of mode.now bytes.now) }
{
    let number = read_number(bytes)?;
    Some(time_of_units(mode.unit(), number))
}

/// The time of a line, of which these bytes stand behind its fields.
#[tactic(auto, unfolding(crate::specs::Line::time_of))]
pub fn time(mode: &Mode, bytes: &[u8]) -> Result<i64, LineFault>
    ensures { result ≡ time_of mode.now bytes.now }
{
    if bytes.is_empty() {
        return mode.missing_time();
    }
    if let Some(time) = number_time(mode, bytes) {
        return time;
    }
    let (word, behind) = split_at_space(bytes);
    if !are_spaces(behind) {
        return Err(LineFault::Time);
    }
    word_time(mode, word)
}
