ghost use Rattle.std.specs.Prelude.{◌≡◌, ◌≤◌, Some, None, if◌then◌else◌, length, min, IsTrue};
ghost use Rattle.std.specs.List.{list_all};
ghost use Rattle.std.specs.Char.{is_ascii_digit};
ghost use Rattle.std.specs.Option.{option_map};
ghost use Rattle.std.specs.Str.Parse.{digits_value};
ghost use Rattle.line_points.specs.declared.number.TheConstants.{SURE_DIGITS};
ghost use Rattle.line_points.specs.Numbers.{is_digits, number_from, number_of, before_last_byte, is_true, is_false};
ghost use Rattle.line_points.specs.Cap.{cap, parts};

/// A number of a line. One above `u64::MAX` has that magnitude.
#[derive(Clone, Copy)]
pub struct Number {
    pub negative: bool,
    pub magnitude: u64,
}

/// Whether all are digits. It looks at each of them, so that it can look at many at once.
fn all_digits(bytes: &[u8]) -> bool
    ensures { result ≡ list_all is_ascii_digit bytes.now }
{
    let mut digits = true;
    'looking: for byte in bytes {
        digits &= byte.is_ascii_digit();
    }
    digits
}

/// Whether there are bytes, and all are digits.
pub fn is_digits(bytes: &[u8]) -> bool
    ensures { result ≡ is_digits bytes.now }
{
    !bytes.is_empty() && all_digits(bytes)
}

/// So many digits stand for a number that fits 64 bits, whichever they are.
const SURE_DIGITS: usize = 19;

/// The number of at most `SURE_DIGITS` digits; `None` where a byte is no digit, or there is none.
fn sure_magnitude(bytes: &[u8]) -> Option<u64>
    requires { length bytes.now ≤ SURE_DIGITS }
    ensures { result ≡ (if is_digits bytes.now then Some (digits_value 10 bytes.now) else None) }
{
    if bytes.is_empty() {
        return None;
    }
    let mut value = 0u64;
    'adding: for byte in bytes {
        if !byte.is_ascii_digit() {
            return None;
        }
        value = value * 10 + u64::from(*byte - b'0');
    }
    Some(value)
}

/// The number of any digits, or the greatest one of 64 bits where it is greater.
fn capped_magnitude(digits: &[u8]) -> u64
    requires { IsTrue (is_digits digits.now) }
    ensures { result ≡ min (digits_value 10 digits.now) u64.MAX }
{
    let mut value = 0u64;
    for digit in digits {
        value = value
            .saturating_mul(10)
            .saturating_add(u64::from(*digit - b'0'));
    }
    value
}

/// The number of digits, or the greatest one of 64 bits where it is greater; `None` where a byte is no digit,
/// or there is none.
fn magnitude(bytes: &[u8]) -> Option<u64>
    ensures { result ≡ (if is_digits bytes.now
        then Some (min (digits_value 10 bytes.now) u64.MAX) else None) }
{
    if bytes.len() <= SURE_DIGITS {
        return sure_magnitude(bytes);
    }
    if !is_digits(bytes) {
        return None;
    }
    Some(capped_magnitude(bytes))
}

fn number_from(negative: bool, bytes: &[u8]) -> Option<Number>
    ensures { option_map parts result ≡ option_map cap (number_from negative bytes.now) }
{
    let magnitude = magnitude(bytes)?;
    Some(Number {
        negative,
        magnitude,
    })
}

/// The number of an optional minus and digits.
pub fn read_number(bytes: &[u8]) -> Option<Number>
    ensures { option_map parts result ≡ option_map cap (number_of bytes.now) }
{
    match bytes.split_first() {
        Some((b'-', digits)) => number_from(true, digits),
        _ => number_from(false, bytes),
    }
}

/// The bytes before the last one, where that is `byte`.
pub fn before_last(byte: u8, bytes: &[u8]) -> Option<&[u8]>
    ensures { option_map (λ front. front.now) result ≡ before_last_byte byte bytes.now }
{
    let (last, front) = bytes.split_last()?;
    if *last == byte { Some(front) } else { None }
}

pub fn is_true(word: &[u8]) -> bool
    ensures { result ≡ is_true word.now }
{
    matches!(word, b"t" | b"T" | b"true" | b"True" | b"TRUE")
}

pub fn is_false(word: &[u8]) -> bool
    ensures { result ≡ is_false word.now }
{
    matches!(word, b"f" | b"F" | b"false" | b"False" | b"FALSE")
}
