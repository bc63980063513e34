//! `strReplace`.

ghost use Rattle.std.specs.Prelude.{◌≡◌, ◌<◌, ◌-◌, ◌++◌, IfOk, IfSome, IsTrue, OnOk, length, string_bytes, ◌^◌};
ghost use Rattle.std.specs.Str.{chars};
ghost use Rattle.kap_base.specs.Texts.{is_line};
ghost use Rattle.lambda_fns.specs.Texts.{IsGiven, text_of_pieces, piece, pieces, pieces_between, replaced};

use kap_base::{NoMemory, Text};
use std::alloc::{AllocError, Global};

/// The most bytes that a text has which a function or an operator makes longer.
pub const TEXT_LIMIT: usize = 65_536;

/// The text with `to` for the first places of `from`, which isn't empty, as many as `count`, and none where
/// that is too long.
fn replace_matches(
    alloc: Global,
    text: &str,
    from: &str,
    to: &str,
    count: usize,
) -> Result<Option<String>, AllocError>
    requires { 0 < length from.now }
    ensures { IfOk result
        (IsGiven string_bytes (text_of_pieces to.now (pieces count from.now text.now))) }
{
    let mut made = String::new(alloc);
    let mut rest = text;
    'replacing: for _ in 0..count {
        let Some((before, after)) = rest.split_once(from) else {
            break;
        };
        made.push_str(before)?;
        made.push_str(to)?;
        if made.len() > TEXT_LIMIT {
            return Ok(None);
        }
        rest = after;
    }
    made.push_str(rest)?;
    if made.len() > TEXT_LIMIT {
        return Ok(None);
    }
    Ok(Some(made))
}

/// Appends `to` where some are left, and gives how many are left then.
fn push_if_left(made: &mut String, to: &str, left: usize) -> Result<usize, AllocError>
    ensures bytes { OnOk result
        (string_bytes made.new ≡ string_bytes made.old ++ piece left to.now) }
    ensures left { IfOk result (λ now. now ≡ left - 1) }
{
    if left == 0 {
        return Ok(0);
    }
    made.push_str(to)?;
    Ok(left - 1)
}

/// The text with `to` before each of the first characters, as many as `count`, and at the end where there are
/// fewer, and none where that is too long.
fn insert_between(
    alloc: Global,
    text: &str,
    to: &str,
    count: usize,
) -> Result<Option<String>, AllocError>
    ensures { IfOk result (IsGiven string_bytes
        (text_of_pieces to.now (pieces_between count (chars text.now)))) }
{
    let mut made = String::new(alloc);
    let mut left = count;
    'inserting: for character in text.chars() {
        left = push_if_left(&mut made, to, left)?;
        made.push(character)?;
        if made.len() > TEXT_LIMIT {
            return Ok(None);
        }
    }
    push_if_left(&mut made, to, left)?;
    if made.len() > TEXT_LIMIT {
        return Ok(None);
    }
    Ok(Some(made))
}

/// The text with `to` for the first places of `from`, as many as `count`, or all where that is negative; none
/// where that is too long.
fn replace_string(
    alloc: Global,
    text: &str,
    from: &str,
    to: &str,
    count: i64,
) -> Result<Option<String>, AllocError>
    ensures { IfOk result (IsGiven string_bytes (replaced text.now from.now to.now count)) }
{
    let most = if count < 0 {
        text.len() + 1
    } else {
        count as usize
    };
    if from.is_empty() {
        insert_between(alloc, text, to, most)
    } else {
        replace_matches(alloc, text, from, to, most)
    }
}

/// The text with `to` for the first places of `from`, all where `count` is negative, and none where that is
/// longer than a text may be made.
#[tactic(auto, using(crate::proofs::LineLaws::replaced_line))]
pub(crate) fn replace(
    alloc: Global,
    text: &str,
    from: &str,
    to: &str,
    count: i64,
) -> Result<Option<Text>, NoMemory>
    ensures given { IfOk result (IsGiven (λ t. t) (replaced text.now from.now to.now count)) }
    ensures line { IsTrue (is_line text.now) → IsTrue (is_line to.now)
        → IfOk result (λ made. IfSome made (λ t. IsTrue (is_line t))) }
{
    match replace_string(alloc, text, from, to, count)? {
        Some(made) => Ok(Some(Text::from_string(made))),
        None => Ok(None),
    }
}

/// The limit as a number of bytes.
pub fn limit_is_a_number()
    ensures { TEXT_LIMIT ≡ 2 ^ 16 }
{}
