//! Where bytes stop being a text.
ghost use Rattle.std.specs.Prelude.{◌≡◌, ◌≤◌, ℕ, List, length, IfOk, IfErr};
ghost use Rattle.std.specs.Str.{IsUtf8};
ghost use Rattle.kap_base.specs.Utf8.{BreaksAt, broken_at};

use std::str;

/// These bytes as a text; or the place of the first byte that doesn't continue a character: the least at
/// which no UTF-8 text begins with the bytes up to it and itself. Where the bytes end inside a character no
/// such byte stands, and the place is their length (Unicode, table 3-7: well-formed UTF-8 byte sequences).
#[tactic(auto, unfolding(crate::specs::Utf8::broken_at, crate::specs::Utf8::begun_len))]
pub fn utf8_text(bytes: &[u8]) -> Result<&str, usize>
    ensures text { IfOk result (λ text. (text.now ≡ bytes.now) × IsUtf8 bytes.now) }
    ensures broken { IfErr result (λ at. (at ≡ broken_at bytes.now) × ¬ (IsUtf8 bytes.now)) }
    ensures within { IfErr result (λ at. at ≤ length bytes.now) }
{
    match str::from_utf8(bytes) {
        Ok(text) => Ok(text),
        Err(fault) => {
            let (text, rest) = bytes.split_at(fault.valid_up_to());
            let begun = match rest.first() {
                Some(0xC2..=0xF4) => fault.error_len().unwrap_or(rest.len()),
                _ => 0,
            };
            Err(text.len() + begun)
        }
    }
}

/// The law of the place where bytes break. Bytes that aren't a text break where `broken_at` says: what stands
/// before that place goes on to some text, and with the byte that stands there no text begins. No other place
/// is so.
pub fn bytes_break_in_one_place()
    ensures place { (bytes : List ℕ) → ¬ (IsUtf8 bytes) → BreaksAt bytes (broken_at bytes) }
    ensures one { (bytes : List ℕ) (a b : ℕ) → BreaksAt bytes a → BreaksAt bytes b → a ≡ b }
{}
