//! `int`, `bool` and `string`.

ghost use Rattle.std.specs.Prelude.{◌≡◌, ◌==◌, slice_index, IfOk, IsTrue};
ghost use Rattle.std.specs.Fmt.{signed_decimal};
ghost use Rattle.kap_base.specs.Texts.{is_line};
ghost use Rattle.lambda_fns.specs.Numbers.{number_in, is_true, is_false, truth_in, truth_of, truth_text};

use kap_base::{NoMemory, Text};
use std::alloc::Global;

fn has_plus(text: &str) -> bool
    ensures { result ≡ (slice_index text.now 0 == 43) }
{
    matches!(text.as_bytes(), [b'+', ..])
}

/// The number that an optional `-` and digits write.
pub(crate) fn number(text: &str) -> Option<i64>
    ensures { result ≡ number_in text.now }
{
    if has_plus(text) {
        return None;
    }
    text.parse::<i64>().ok()
}

fn is_true(text: &[u8]) -> bool
    ensures { result ≡ is_true text.now }
{
    matches!(text, b"1" | b"t" | b"T" | b"true" | b"True" | b"TRUE")
}

fn is_false(text: &[u8]) -> bool
    ensures { result ≡ is_false text.now }
{
    matches!(text, b"0" | b"f" | b"F" | b"false" | b"False" | b"FALSE")
}

/// The truth value that a text spells.
pub(crate) fn truth(text: &[u8]) -> Option<bool>
    ensures { result ≡ truth_in text.now }
{
    if is_true(text) {
        Some(true)
    } else if is_false(text) {
        Some(false)
    } else {
        None
    }
}

/// The truth value that a number stands for.
pub(crate) fn truth_of_number(number: i64) -> Option<bool>
    ensures { result ≡ truth_of number }
{
    match number {
        1 => Some(true),
        0 => Some(false),
        _ => None,
    }
}

/// The number in decimal.
pub(crate) fn decimal(alloc: Global, number: i64) -> Result<Text, NoMemory>
    ensures decimal { IfOk result (λ text. text ≡ signed_decimal number) }
    ensures line { IfOk result (λ text. IsTrue (is_line text)) }
{
    Ok(Text::from_string(number.to_string(alloc)?))
}

/// How a truth value is written.
pub(crate) fn text_of_truth(alloc: Global, truth: bool) -> Result<Text, NoMemory>
    ensures text { IfOk result (λ text. text ≡ truth_text truth) }
    ensures line { IfOk result (λ text. IsTrue (is_line text)) }
{
    if truth {
        Text::from_str(alloc, "true")
    } else {
        Text::from_str(alloc, "false")
    }
}
