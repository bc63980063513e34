//! Classes of bytes, and numbers.

ghost use Rattle.std.specs.Prelude.{◌≡◌, ◌<◌, ◌≤◌, ◌^◌, length, MatchOption, pos, take_while};
ghost use Rattle.std.specs.Str.Parse.{AllDigits, digits_value};
ghost use Rattle.tick_lexer.specs.Bytes.{is_digit, is_letter, is_white, is_word};

pub fn is_letter(byte: u8) -> bool
    ensures { result ≡ is_letter byte }
{
    matches!(byte, b'a'..=b'z' | b'A'..=b'Z' | b'_')
}

pub fn is_digit(byte: u8) -> bool
    ensures { result ≡ is_digit byte }
{
    matches!(byte, b'0'..=b'9')
}

pub fn is_word(byte: u8) -> bool
    ensures { result ≡ is_word byte }
{
    is_letter(byte) || is_digit(byte)
}

pub fn is_white(byte: u8) -> bool
    ensures { result ≡ is_white byte }
{
    matches!(byte, b' ' | b'\t' | b'\n' | b'\r')
}

/// How many bytes of a word stand at the front.
pub fn word_length(text: &[u8]) -> usize
    ensures { result ≡ length (take_while is_word text.now) }
{
    text.iter().take_while(|byte| is_word(**byte)).count()
}

/// How many digits stand at the front.
pub fn digits_length(text: &[u8]) -> usize
    ensures { result ≡ length (take_while is_digit text.now) }
{
    text.iter().take_while(|byte| is_digit(**byte)).count()
}

/// The number that digits write, `None` where it is 2^63 or more.
#[tactic(auto, using(crate::proofs::Scans::value_grows))]
pub fn number_of(digits: &[u8]) -> Option<i64>
    requires { AllDigits 10 digits.now }
    ensures { MatchOption result (2 ^ 63 ≤ digits_value 10 digits.now)
        (λ n. (n ≡ pos (digits_value 10 digits.now)) × (digits_value 10 digits.now < 2 ^ 63)) }
{
    let mut number: u128 = 0;
    for byte in digits {
        number = number * 10 + u128::from(*byte - b'0');
        if number >= 1 << 63 {
            return None;
        }
    }
    Some(number as i64)
}
