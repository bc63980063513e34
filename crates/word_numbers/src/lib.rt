//! Numbers as words of a command line write them.
#![tactic(auto)]

ghost use Rattle.std.specs.Prelude.{◌≡◌, ◌==◌, ◌≤◌, IfSome, slice_index};
ghost use Rattle.word_numbers.specs.Numbers.{has_leading_zero, number_in, number_within};

fn has_plus(word: &[u8]) -> bool
    ensures { result ≡ (slice_index word.now 0 == 43) }
{
    matches!(word, [b'+', ..])
}

/// Whether a zero stands before other bytes.
fn has_leading_zero(word: &[u8]) -> bool
    ensures { result ≡ has_leading_zero word.now }
{
    matches!(word, [b'0', _, ..])
}

/// The number below 2^32 that digits write without a sign or a leading zero.
pub fn number_in(word: &str) -> Option<u32>
    ensures { result ≡ number_in word.now }
{
    if has_plus(word.as_bytes()) || has_leading_zero(word.as_bytes()) {
        return None;
    }
    word.parse::<u32>().ok()
}

/// The number that a word writes so, where it lies within limits.
pub fn number_within(low: u32, high: u32, word: &str) -> Option<u32>
    ensures number { result ≡ number_within low high word.now }
    ensures within { IfSome result (λ n. (low ≤ n) × (n ≤ high)) }
{
    let number = number_in(word)?;
    if number < low || high < number {
        return None;
    }
    Some(number)
}
