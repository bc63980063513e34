ghost use Rattle.std.specs.Prelude.{◌≡◌, ◌≤◌, ◌++◌, length, IfOk, IsUtf8, OnErr, OnOk, string_bytes, take};
ghost use Rattle.std.specs.Str.{IsCharBoundary};
ghost use Rattle.kap_base.specs.declared.short_text.TheConstants.{SHORT_LIMIT};

use crate::short_text::{SHORT_LIMIT, ShortText};
use std::alloc::{AllocError, Global};
use std::marker::Model;

/// A list of bytes that is UTF-8. One of up to `SHORT_LIMIT` bytes takes no allocation: the string is empty
/// then, and the short text counts.
///
/// It is no enum, since a value with an enum inside is moved part by part, and one without is moved as a
/// whole.
#[derive(Drop)]
pub(crate) struct Packed {
    string: String,
    short: ShortText,
}

impl Model for Packed {
    ghost use Rattle.std.specs.Prelude.{List, ℕ, string_bytes};
    ghost use Rattle.kap_base.specs.Texts.{or_else};

    ghost Value = { List ℕ };

    ghost view = { λ t. or_else (string_bytes t.string) t.short };
}

/// The text of this `&str`, which is short.
fn short_text(alloc: Global, text: &str) -> Packed
    requires { length text.now ≤ SHORT_LIMIT }
    ensures { result ≡ text.now }
{
    Packed {
        string: String::new(alloc),
        short: ShortText::from_str(text),
    }
}

/// The text of this string.
fn long_text(string: String) -> Packed
    ensures { result ≡ string_bytes string }
{
    Packed {
        string,
        short: ShortText::empty(),
    }
}

/// The string of two texts.
fn both(alloc: Global, front: &str, back: &str) -> Result<String, AllocError>
    ensures { IfOk result (λ string. string_bytes string ≡ front.now ++ back.now) }
{
    let room = front.len().saturating_add(back.len());
    let mut string = String::with_capacity(alloc, room)?;
    string.push_str(front)?;
    string.push_str(back)?;
    Ok(string)
}

impl Packed {
    /// The text of this `&str`: it allocates only where it is long.
    pub(crate) fn from_str(alloc: Global, text: &str) -> Result<Packed, AllocError>
        ensures text { IfOk result (λ t. t ≡ text.now) }
        ensures utf8 { IfOk result (λ t. IsUtf8 t) }
    {
        if text.len() <= SHORT_LIMIT {
            return Ok(short_text(alloc, text));
        }
        Ok(long_text(String::from_str(alloc, text)?))
    }

    /// The text of the first bytes of a line.
    pub(crate) fn from_front(alloc: Global, line: &str, len: usize) -> Result<Packed, AllocError>
        requires { IsCharBoundary line.now len }
        ensures text { IfOk result (λ t. t ≡ take len line.now) }
        ensures utf8 { IfOk result (λ t. IsUtf8 t) }
    {
        if len <= SHORT_LIMIT && SHORT_LIMIT <= line.len() {
            return Ok(Packed {
                string: String::new(alloc),
                short: ShortText::from_front(line, len),
            });
        }
        let (text, _) = line.split_at(len);
        Packed::from_str(alloc, text)
    }

    /// The text of this string.
    pub(crate) fn from_string(string: String) -> Packed
        ensures text { result ≡ string_bytes string }
        ensures utf8 { IsUtf8 result }
    {
        if string.len() <= SHORT_LIMIT {
            return short_text(*string.allocator(), string.as_str());
        }
        long_text(string)
    }

    /// Its bytes, as text.
    pub(crate) fn as_str(&self) -> &str
        ensures { result.now ≡ self.now }
    {
        if self.string.is_empty() {
            return self.short.as_str();
        }
        self.string.as_str()
    }

    /// An equal text.
    pub(crate) fn copy(&self, alloc: Global) -> Result<Packed, AllocError>
        ensures copy { IfOk result (λ t. t ≡ self.now) }
        ensures utf8 { IfOk result (λ t. IsUtf8 t) }
    {
        if self.string.is_empty() {
            return Ok(Packed {
                string: String::new(alloc),
                short: self.short.copy(),
            });
        }
        Ok(long_text(String::from_str(alloc, self.string.as_str())?))
    }

    /// Adds a text at the end. An `Err` changes nothing.
    #[tactic(auto, using(crate::proofs::TextLaws::or_else_some))]
    pub(crate) fn append(&mut self, more: &str) -> Result<(), AllocError>
        ensures ok { OnOk result (self.new ≡ self.old ++ more.now) }
        ensures err { OnErr result (self.new ≡ self.old) }
    {
        if !self.string.is_empty() {
            return self.string.push_str(more);
        }
        if more.len() <= SHORT_LIMIT - self.short.len() {
            self.short.append(more);
            return Ok(());
        }
        self.string = both(*self.string.allocator(), self.short.as_str(), more)?;
        Ok(())
    }
}
