ghost use Rattle.std.specs.Prelude.{◌≡◌, ◌+◌, ◌<◌, length, take, drop, ℕ, Bool};
ghost use Rattle.std.specs.Option.{option_map};
ghost use Rattle.line_points.specs.Words.{is_point, is_exponent_mark, cut, without, is_sign, is_mantissa, is_float, is_unsigned, integer_of, int_value, other_value, word_value};
ghost use Rattle.line_points.specs.Numbers.{is_minus};
ghost use Rattle.line_points.specs.Cap.{cap, parts};

use crate::bytes::{byte_place, either_place};
use crate::fault::LineFault;
use crate::number::{Number, before_last, is_digits, is_false, is_true, read_number};
use kap_base::Value;

/// The bytes before and behind a place.
fn around(bytes: &[u8], at: usize) -> (&[u8], &[u8])
    requires { at < length bytes.now }
    ensures before { result.0.now ≡ take at bytes.now }
    ensures behind { result.1.now ≡ drop (at + 1) bytes.now }
{
    (&bytes[..at], &bytes[at + 1..])
}

fn cut_at_point(bytes: &[u8]) -> Option<(&[u8], &[u8])>
    ensures { option_map (λ p. (p.0.now, p.1.now)) result ≡ cut is_point bytes.now }
{
    match byte_place(bytes, b'.') {
        Some(at) => Some(around(bytes, at)),
        None => None,
    }
}

fn cut_at_exponent(bytes: &[u8]) -> Option<(&[u8], &[u8])>
    ensures { option_map (λ p. (p.0.now, p.1.now)) result ≡ cut is_exponent_mark bytes.now }
{
    match either_place(bytes, b'e', b'E') {
        Some(at) => Some(around(bytes, at)),
        None => None,
    }
}

fn without_minus(bytes: &[u8]) -> &[u8]
    ensures { result.now ≡ without is_minus bytes.now }
{
    match bytes.split_first() {
        Some((b'-', rest)) => rest,
        _ => bytes,
    }
}

fn without_sign(bytes: &[u8]) -> &[u8]
    ensures { result.now ≡ without is_sign bytes.now }
{
    match bytes.split_first() {
        Some((b'-' | b'+', rest)) => rest,
        _ => bytes,
    }
}

fn is_mantissa(bytes: &[u8]) -> bool
    ensures { result ≡ is_mantissa bytes.now }
{
    match cut_at_point(bytes) {
        None => is_digits(bytes),
        Some((whole, fraction)) => (whole.is_empty() || is_digits(whole)) && is_digits(fraction),
    }
}

fn is_float(word: &[u8]) -> bool
    ensures { result ≡ is_float word.now }
{
    let number = without_minus(word);
    match cut_at_exponent(number) {
        None => is_mantissa(number),
        Some((mantissa, exponent)) => is_mantissa(mantissa) && is_digits(without_sign(exponent)),
    }
}

fn is_unsigned(word: &[u8]) -> bool
    ensures { result ≡ is_unsigned word.now }
{
    match before_last(b'u', word) {
        Some(digits) => is_digits(digits),
        None => false,
    }
}

/// What an integer's number stands for.
fn int_value(number: Number) -> Result<Value, LineFault>
    ensures { (n : Bool × ℕ) → parts number ≡ cap n → result ≡ int_value n }
{
    let magnitude = i128::from(number.magnitude);
    let value = if number.negative {
        -magnitude
    } else {
        magnitude
    };
    i64::try_from(value)
        .map(Value::Int)
        .map_err(|_| LineFault::Field)
}

fn other_value(word: &[u8]) -> Result<Value, LineFault>
    ensures { result ≡ other_value word.now }
{
    if is_true(word) {
        Ok(Value::Bool(true))
    } else if is_false(word) {
        Ok(Value::Bool(false))
    } else if is_float(word) {
        Err(LineFault::FloatField)
    } else if is_unsigned(word) {
        Err(LineFault::UnsignedField)
    } else {
        Err(LineFault::Field)
    }
}

fn integer(word: &[u8]) -> Option<Number>
    ensures { option_map parts result ≡ option_map cap (integer_of word.now) }
{
    read_number(before_last(b'i', word)?)
}

/// What a word without quotes stands for.
pub fn word_value(word: &[u8]) -> Result<Value, LineFault>
    ensures { result ≡ word_value word.now }
{
    match integer(word) {
        Some(number) => int_value(number),
        None => other_value(word),
    }
}
