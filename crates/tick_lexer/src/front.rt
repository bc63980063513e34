//! The token at the front of a text.

ghost use Rattle.std.specs.Prelude.{◌≡◌, ◌≢◌, ◌+◌, ◌<◌, ◌≤◌, ◌^◌, drop, false, IfOk, length, slice_index};
ghost use Rattle.std.specs.Str.Parse.{AllDigits};
ghost use Rattle.tick_lexer.specs.Bytes.{starts};
ghost use Rattle.tick_lexer.specs.Front.{before_three, duration, front, integer, mark, measured, number, numeral, scan, sign, string, tripled, unit_at, word, word_kind};
ghost use Rattle.tick_lexer.specs.Runs.{IsFound, IsScanned};
ghost use Rattle.tick_lexer.specs.Spelling.{has_leading_zero, is_dot, is_equals, is_tilde};

use crate::bytes::{digits_length, is_digit, is_letter, is_word, number_of, word_length};
use crate::limits::DURATION_LIMIT;
use crate::quote::{Quoted, before_three, scan_quoted};
use crate::token::{Kind, LexFault};
use crate::unit::Unit;
use kap_base::{Lit, NoMemory, Op, SharedText, Text};
use std::alloc::Global;

/// A token's kind, and how many bytes it has.
#[derive(Drop)]
pub struct Front {
    pub kind: Kind,
    pub bytes: usize,
}

fn starts_with_equals(text: &[u8]) -> bool
    ensures { result ≡ starts is_equals text.now }
{
    matches!(text, [b'=', ..])
}

fn starts_with_tilde(text: &[u8]) -> bool
    ensures { result ≡ starts is_tilde text.now }
{
    matches!(text, [b'~', ..])
}

/// The sign that begins with this byte.
fn sign(at: u32, byte: u8, rest: &[u8]) -> Result<Front, LexFault>
    ensures { IsFound result (sign at byte rest.now) }
{
    let equals = starts_with_equals(rest);
    let tilde = starts_with_tilde(rest);
    let (kind, bytes) = match byte {
        b'(' => (Kind::OpenParen, 1),
        b')' => (Kind::CloseParen, 1),
        b',' => (Kind::Comma, 1),
        b'.' => (Kind::Dot, 1),
        b'|' => (Kind::Pipe, 1),
        b'+' => (Kind::Operator(Op::Add), 1),
        b'-' => (Kind::Operator(Op::Sub), 1),
        b'*' => (Kind::Operator(Op::Mul), 1),
        b'/' => (Kind::Operator(Op::Div), 1),
        b'%' => (Kind::Operator(Op::Rem), 1),
        b'=' if equals => (Kind::Operator(Op::Eq), 2),
        b'=' if tilde => (Kind::Operator(Op::Match), 2),
        b'=' => (Kind::Assign, 1),
        b'!' if equals => (Kind::Operator(Op::Ne), 2),
        b'!' if tilde => (Kind::Operator(Op::NoMatch), 2),
        b'!' => (Kind::Not, 1),
        b'<' if equals => (Kind::Operator(Op::Le), 2),
        b'<' => (Kind::Operator(Op::Lt), 1),
        b'>' if equals => (Kind::Operator(Op::Ge), 2),
        b'>' => (Kind::Operator(Op::Gt), 1),
        b'@' => return Err(LexFault::UserFunction(at)),
        _ => return Err(LexFault::BadChar(at)),
    };
    Ok(Front { kind, bytes })
}

/// A word's kind.
fn word_kind(alloc: Global, name: &str) -> Result<Kind, NoMemory>
    ensures { IfOk result (λ kind. kind ≡ word_kind name.now) }
{
    let bytes = name.as_bytes();
    if bytes == b"OR".as_slice() {
        Ok(Kind::Operator(Op::Or))
    } else if bytes == b"AND".as_slice() {
        Ok(Kind::Operator(Op::And))
    } else if bytes == b"TRUE".as_slice() {
        Ok(Kind::Literal(Lit::Bool(true)))
    } else if bytes == b"FALSE".as_slice() {
        Ok(Kind::Literal(Lit::Bool(false)))
    } else if bytes == b"var".as_slice() {
        Ok(Kind::Var)
    } else {
        Ok(Kind::Ident(Text::from_str(alloc, name)?))
    }
}

/// The word at the front.
fn word(alloc: Global, text: &str) -> Result<Front, LexFault>
    ensures { IsFound result (word text.now) }
{
    let (name, rest) = text.split_at(word_length(text.as_bytes()));
    let colon = matches!(rest.as_bytes(), [b':', ..]);
    if colon && name.as_bytes() == b"lambda".as_slice() {
        return Ok(Front {
            kind: Kind::Lambda,
            bytes: name.len() + 1,
        });
    }
    Ok(Front {
        kind: word_kind(alloc, name)?,
        bytes: name.len(),
    })
}

/// The integer that these digits write.
fn integer(at: u32, digits: &[u8]) -> Result<Front, LexFault>
    requires { AllDigits 10 digits.now }
    ensures { IsFound result (integer at digits.now) }
{
    match number_of(digits) {
        Some(number) => Ok(Front {
            kind: Kind::Literal(Lit::Int(number)),
            bytes: digits.len(),
        }),
        None => Err(LexFault::WideInt(at)),
    }
}

/// The duration of these digits and this unit.
fn duration(at: u32, digits: &[u8], unit: Unit) -> Result<Front, LexFault>
    requires { AllDigits 10 digits.now }
    ensures { IsFound result (duration at digits.now unit) }
{
    let Some(number) = number_of(digits) else {
        return Err(LexFault::WideDuration(at));
    };
    let nanos = number as u128 * u128::from(unit.nanos());
    if nanos > DURATION_LIMIT {
        return Err(LexFault::WideDuration(at));
    }
    Ok(Front {
        kind: Kind::Literal(Lit::Dur(nanos as i64)),
        bytes: digits.len() + unit.size(),
    })
}

/// The number of these digits, whatever their unit, and what follows them.
fn measured(at: u32, digits: &[u8], tail: &[u8]) -> Result<Front, LexFault>
    requires { AllDigits 10 digits.now }
    ensures { IsFound result (measured at digits.now tail.now (unit_at tail.now)) }
{
    let Some(unit) = Unit::at_front(tail) else {
        if matches!(tail, [first, ..] if is_word(*first)) {
            return Err(LexFault::BadNumber(at));
        }
        return integer(at, digits);
    };
    if matches!(tail.split_at(unit.size()).1, [first, ..] if is_word(*first)) {
        return Err(LexFault::BadNumber(at));
    }
    duration(at, digits, unit)
}

/// Whether the text begins with a dot.
fn starts_with_dot(text: &[u8]) -> bool
    ensures { result ≡ starts is_dot text.now }
{
    matches!(text, [b'.', ..])
}

/// Whether a zero stands before another digit.
fn has_leading_zero(digits: &[u8]) -> bool
    ensures { result ≡ has_leading_zero digits.now }
{
    matches!(digits, [b'0', _, ..])
}

/// The number whose digits are given, and what follows them.
fn numeral(at: u32, digits: &[u8], tail: &[u8]) -> Result<Front, LexFault>
    requires { AllDigits 10 digits.now }
    ensures { IsFound result (numeral at digits.now tail.now) }
{
    if has_leading_zero(digits) {
        return Err(LexFault::OctalLiteral(at));
    }
    if starts_with_dot(tail) {
        return Err(LexFault::FloatLiteral(at));
    }
    measured(at, digits, tail)
}

/// The number at the front.
#[tactic(auto, using(crate::proofs::Scans::digits_at))]
fn number(at: u32, text: &[u8]) -> Result<Front, LexFault>
    ensures { IsFound result (number at text.now) }
{
    let (digits, tail) = text.split_at(digits_length(text));
    numeral(at, digits, tail)
}

/// The text behind a quote, up to the quote that ends it; the fault where it has no end.
fn quoted(alloc: Global, rest: &str, quote: u8, fault: LexFault) -> Result<Quoted, LexFault>
    requires ascii { quote < 128 }
    requires plain { quote ≢ 92 }
    ensures found { IsScanned fault result (scan quote rest.now false) }
    ensures within { IfOk result (λ quoted. quoted.bytes ≤ length rest.now) }
{
    match scan_quoted(alloc, quote, rest)? {
        Some(quoted) => Ok(quoted),
        None => Err(fault),
    }
}

/// The string that three single quotes began, and the text behind them.
#[tactic(auto, using(crate::proofs::Scans::three_cut))]
fn tripled(alloc: Global, at: u32, rest: &str) -> Result<Front, LexFault>
    ensures { IsFound result (tripled at rest.now (before_three rest.now)) }
{
    let Some(count) = before_three(rest.as_bytes()) else {
        return Err(LexFault::OpenString(at));
    };
    let text = Text::from_str(alloc, &rest[..count])?;
    Ok(Front {
        kind: Kind::Literal(Lit::Str(SharedText::new(alloc, text)?)),
        bytes: count + 6,
    })
}

/// The string that a single quote began, and the text behind it.
#[tactic(auto, using(crate::proofs::Scans::cut_second))]
fn string(alloc: Global, at: u32, rest: &str) -> Result<Front, LexFault>
    ensures { IsFound result (string at 39 rest.now) }
{
    if matches!(rest.as_bytes(), [b'\'', b'\'', ..]) {
        return tripled(alloc, at, &rest[2..]);
    }
    let quoted = quoted(alloc, rest, b'\'', LexFault::OpenString(at))?;
    Ok(Front {
        kind: Kind::Literal(Lit::Str(SharedText::new(alloc, quoted.text)?)),
        bytes: quoted.bytes + 1,
    })
}

/// The token of a quote, a sign or a pattern that begins with this byte at this place.
fn mark(alloc: Global, pattern: bool, text: &str, at: usize, byte: u8) -> Result<Front, LexFault>
    requires place { at < length text.now }
    requires small { length text.now < 2 ^ 32 }
    requires byte { slice_index text.now at ≡ byte }
    ensures { IsFound result (mark pattern at byte (drop (at + 1) text.now)) }
{
    let place = at as u32;
    if byte == b'\'' {
        return string(alloc, place, text.split_at(at + 1).1);
    }
    if byte == b'"' {
        let quoted = quoted(
            alloc,
            text.split_at(at + 1).1,
            byte,
            LexFault::OpenString(place),
        )?;
        return Ok(Front {
            kind: Kind::Reference(quoted.text),
            bytes: quoted.bytes + 1,
        });
    }
    if byte == b'/' && pattern {
        let quoted = quoted(
            alloc,
            text.split_at(at + 1).1,
            byte,
            LexFault::OpenRegex(place),
        )?;
        return Ok(Front {
            kind: Kind::Literal(Lit::Regex(SharedText::new(alloc, quoted.text)?)),
            bytes: quoted.bytes + 1,
        });
    }
    sign(place, byte, text.as_bytes().split_at(at + 1).1)
}

/// The token at a place where no gap begins.
pub fn next_token(alloc: Global, pattern: bool, text: &str, at: usize) -> Result<Front, LexFault>
    requires place { at < length text.now }
    requires small { length text.now < 2 ^ 32 }
    ensures { IsFound result (front pattern at (drop at text.now)) }
{
    let byte = text.as_bytes()[at];
    if is_letter(byte) {
        word(alloc, text.split_at(at).1)
    } else if is_digit(byte) {
        number(at as u32, text.as_bytes().split_at(at).1)
    } else {
        mark(alloc, pattern, text, at, byte)
    }
}
