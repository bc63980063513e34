ghost use Rattle.std.specs.Prelude.{◌≡◌, ◌==◌, IfOk, IfSome, drop, position, take};
ghost use Rattle.std.specs.Str.{IsCharBoundary};
ghost use Rattle.std.specs.List.{position_or_len};
ghost use Rattle.line_points.specs.Parts.{escapes, stops, marks, ends, opens_escape, text_at};

use crate::bytes::begins_with;
use std::alloc::{AllocError, Global};

/// A part of a line that may hold escapes.
#[derive(Clone, Copy)]
pub enum Part {
    Measurement,
    /// A tag's key or value, or a field's key.
    Key,
    /// What stands between double quotes.
    Quoted,
}

impl Part {
    /// Whether a backslash before the byte stands for the byte.
    pub fn escapes(self, byte: u8) -> bool
        ensures { result ≡ escapes self byte }
    {
        match self {
            Part::Measurement => byte == b',' || byte == b' ',
            Part::Key => byte == b',' || byte == b' ' || byte == b'=',
            Part::Quoted => byte == b'"' || byte == b'\\',
        }
    }

    /// Whether the part ends before the byte, where no backslash escapes it.
    fn stops(self, byte: u8) -> bool
        ensures { result ≡ stops self byte }
    {
        match self {
            Part::Measurement => byte == b',' || byte == b' ',
            Part::Key => byte == b',' || byte == b' ' || byte == b'=',
            Part::Quoted => byte == b'"',
        }
    }

    /// Whether the byte may end the part or begin an escape.
    fn marks(self, byte: u8) -> bool
        ensures { result ≡ marks self byte }
    {
        self.stops(byte) || byte == b'\\'
    }

    /// Whether the part ends before the byte.
    fn ends(self, escaped: bool, byte: u8) -> bool
        ensures { result ≡ ends self escaped byte }
    {
        self.stops(byte) && !escaped
    }

    /// Whether the byte is the backslash of an escape, where it stands before these bytes.
    fn opens_escape(self, escaped: bool, byte: u8, after: &[u8]) -> bool
        ensures { result ≡ opens_escape self escaped byte after.now }
    {
        if escaped || byte != b'\\' {
            return false;
        }
        match after.first() {
            Some(next) => self.escapes(*next),
            None => false,
        }
    }

    fn mark_place(self, bytes: &[u8]) -> Option<usize>
        ensures { result ≡ position (marks self) bytes.now }
    {
        bytes.iter().position(|b| self.marks(*b))
    }

    /// How many bytes stand before the first one that may end the part or begin an escape.
    fn plain_len(self, bytes: &[u8]) -> usize
        ensures { result ≡ position_or_len (marks self) bytes.now }
    {
        match self.mark_place(bytes) {
            Some(at) => at,
            None => bytes.len(),
        }
    }

    /// Where the part at the front ends, where no backslash stands in it.
    pub fn plain_end(self, rest: &str) -> Option<usize>
        ensures boundary { IfSome result (λ at. IsCharBoundary rest.now at) }
        ensures parts { IfSome result (λ at.
            text_at self rest.now ≡ (take at rest.now, drop at rest.now)) }
    {
        let at = self.plain_len(rest.as_bytes());
        let (_, behind) = rest.split_at(at);
        if begins_with(behind.as_bytes(), b'\\') {
            return None;
        }
        Some(at)
    }

    /// What the part at the front stands for, and the bytes behind it.
    pub fn unescape(self, alloc: Global, bytes: &[u8]) -> Result<(Vec<u8>, &[u8]), AllocError>
        ensures { IfOk result (λ r. text_at self bytes.now ≡ (r.0.items, r.1.now)) }
    {
        let mut text = Vec::new(alloc);
        let mut rest = bytes;
        let mut escaped = false;
        'bytes: while let Some((byte, after)) = rest.split_first() {
            if self.ends(escaped, *byte) {
                break;
            }
            escaped = self.opens_escape(escaped, *byte, after);
            if !escaped {
                text.push(*byte)?;
            }
            rest = after;
        }
        Ok((text, rest))
    }
}
