//! Functions on texts, but for `strReplace`.

ghost use Rattle.std.specs.Prelude.{◌≡◌, ◌≤◌, is_some, length, map, IsTrue, IfOk, IfSome};
ghost use Rattle.std.specs.Char.{to_ascii_lowercase, to_ascii_uppercase};
ghost use Rattle.std.specs.Str.{IsCharBoundary};
ghost use Rattle.kap_base.specs.Texts.{is_line};
ghost use Rattle.lambda_fns.specs.Texts.{first_place, index_of, is_border, part_of, trimmed};

use kap_base::{NoMemory, Text};
use std::alloc::Global;

/// The first place of `part`.
fn place(text: &str, part: &str) -> Option<usize>
    ensures first { result ≡ first_place part.now text.now }
    ensures within { IfSome result (λ place. place ≤ length text.now) }
{
    text.find(part)
}

/// The first place of `part`, or -1.
pub(crate) fn index(text: &str, part: &str) -> i64
    ensures { result ≡ index_of text.now part.now }
{
    match place(text, part) {
        Some(place) => place as i64,
        None => -1,
    }
}

/// Whether `part` stands in it.
pub(crate) fn contains(text: &str, part: &str) -> bool
    ensures { result ≡ is_some (first_place part.now text.now) }
{
    place(text, part).is_some()
}

/// Whether the text may be cut at this place.
#[tactic(auto, using(crate::proofs::PlaceLaws::border_test, crate::proofs::PlaceLaws::not_border))]
fn is_border(text: &str, at: usize) -> bool
    ensures cut { result ≡ is_border text.now at }
    ensures character { IsTrue result → IsCharBoundary text.now at }
{
    text.is_char_boundary(at)
}

/// The text with small ASCII letters.
#[tactic(auto, using(crate::proofs::LineLaws::lower_line))]
pub(crate) fn lower(alloc: Global, text: &str) -> Result<Text, NoMemory>
    ensures lower { IfOk result (λ made. made ≡ map to_ascii_lowercase text.now) }
    ensures line { IsTrue (is_line text.now) → IfOk result (λ made. IsTrue (is_line made)) }
{
    Ok(Text::from_string(text.to_ascii_lowercase(alloc)?))
}

/// The text with capital ASCII letters.
#[tactic(auto, using(crate::proofs::LineLaws::upper_line))]
pub(crate) fn upper(alloc: Global, text: &str) -> Result<Text, NoMemory>
    ensures upper { IfOk result (λ made. made ≡ map to_ascii_uppercase text.now) }
    ensures line { IsTrue (is_line text.now) → IfOk result (λ made. IsTrue (is_line made)) }
{
    Ok(Text::from_string(text.to_ascii_uppercase(alloc)?))
}

/// The text without white space at both ends.
#[tactic(auto, using(crate::proofs::TrimLaws::trimmed_is))]
pub(crate) fn trim_space(alloc: Global, text: &str) -> Result<Text, NoMemory>
    ensures trimmed { IfOk result (λ made. made ≡ trimmed text.now) }
    ensures line { IsTrue (is_line text.now) → IfOk result (λ made. IsTrue (is_line made)) }
{
    Text::from_str(alloc, text.trim())
}

/// The bytes from one place to before another, where the text may be cut there.
#[tactic(auto, using(crate::proofs::LineLaws::range_line))]
pub(crate) fn substring(
    alloc: Global,
    text: &str,
    from: i64,
    to: i64,
) -> Result<Option<Text>, NoMemory>
    ensures part { IfOk result (λ made. made ≡ part_of text.now from to) }
    ensures line { IsTrue (is_line text.now)
        → IfOk result (λ made. IfSome made (λ part. IsTrue (is_line part))) }
{
    if from < 0 || to < from {
        return Ok(None);
    }
    let (from, to) = (from as usize, to as usize);
    if !is_border(text, from) || !is_border(text, to) {
        return Ok(None);
    }
    Ok(Some(Text::from_str(alloc, &text[from..to])?))
}
