//! Texts that take no allocation.

ghost use Rattle.std.specs.Prelude.{◌≡◌, ◌≤◌, ◌+◌, ◌++◌, [], length, take, drop, IsUtf8};
ghost use Rattle.std.specs.Str.{IsCharBoundary};
ghost use Rattle.kap_base.specs.declared.short_text.TheConstants.{SHORT_LIMIT};

use std::marker::Model;
use std::str;

/// How many bytes a short text has at most.
pub(crate) const SHORT_LIMIT: usize = 16;

/// A text of at most `SHORT_LIMIT` bytes, which lie in the value itself. Contracts see it as its bytes.
#[derive(Drop)]
pub(crate) struct ShortText {
    bytes: [u8; SHORT_LIMIT],
    len: usize,
}

impl Model for ShortText {
    ghost use Rattle.std.specs.Prelude.{List, ℕ, ◌≤◌, IsTrue, take};
    ghost use Rattle.std.specs.Str.{is_utf8};
    ghost use Rattle.kap_base.specs.declared.short_text.TheConstants.{SHORT_LIMIT};

    ghost Value = { List ℕ };

    ghost view = { λ t. take t.len t.bytes };

    ghost invariant = { λ t. (t.len ≤ SHORT_LIMIT) × IsTrue (is_utf8 (take t.len t.bytes)) };
}

/// Writes these bytes over the first ones.
fn copy_front(cells: &mut [u8], source: &[u8])
    requires { length source.now ≤ length cells.old }
    ensures { cells.new ≡ source.now ++ drop (length source.now) cells.old }
{
    let len = source.len();
    let (front, _) = cells.split_at_mut(len);
    front.copy_from_slice(source);
}

impl ShortText {
    /// The short text of this `&str`.
    pub(crate) fn from_str(text: &str) -> ShortText
        requires { length text.now ≤ SHORT_LIMIT }
        ensures { result ≡ text.now }
    {
        let mut bytes = [0; SHORT_LIMIT];
        copy_front(&mut bytes, text.as_bytes());
        ShortText {
            bytes,
            len: text.len(),
        }
    }

    /// The short text of the first bytes of a line that has at least as many as a short text may have. It
    /// takes those all, and so their number is known beforehand.
    pub(crate) fn from_front(line: &str, len: usize) -> ShortText
        requires short { len ≤ SHORT_LIMIT }
        requires long { SHORT_LIMIT ≤ length line.now }
        requires boundary { IsCharBoundary line.now len }
        ensures { result ≡ take len line.now }
    {
        let mut bytes = [0; SHORT_LIMIT];
        let (front, _) = line.as_bytes().split_at(SHORT_LIMIT);
        bytes.copy_from_slice(front);
        ShortText { bytes, len }
    }

    /// The empty text.
    pub(crate) fn empty() -> ShortText
        ensures { result ≡ [] }
    {
        ShortText {
            bytes: [0; SHORT_LIMIT],
            len: 0,
        }
    }

    /// How many bytes it has.
    pub(crate) fn len(&self) -> usize
        ensures len { result ≡ length self.now }
        ensures limit { result ≤ SHORT_LIMIT }
    {
        self.len
    }

    /// Adds a text at the end.
    pub(crate) fn append(&mut self, more: &str)
        requires { length self.old + length more.now ≤ SHORT_LIMIT }
        ensures { self.new ≡ self.old ++ more.now }
    {
        let len = self.len;
        let (_, rest) = self.bytes.split_at_mut(len);
        copy_front(rest, more.as_bytes());
        self.len = len + more.len();
    }

    /// Its bytes, as text.
    pub(crate) fn as_str(&self) -> &str
        ensures { result.now ≡ self.now }
    {
        unsafe { str::from_utf8_unchecked(&self.bytes[..self.len]) }
    }

    /// An equal text.
    pub(crate) fn copy(&self) -> ShortText
        ensures copy { result ≡ self.now }
        ensures utf8 { IsUtf8 result }
    {
        ShortText {
            len: self.len,
            bytes: self.bytes,
        }
    }
}
