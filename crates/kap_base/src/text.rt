ghost use Rattle.std.specs.Prelude.{◌≡◌, ◌++◌, OnErr, OnOk, IfOk, IsUtf8, IsErrOf, Some, bytes_eq, nat_eq, refl, string_bytes, take};
ghost use Rattle.std.specs.Str.{IsCharBoundary};
ghost use Rattle.std.specs.Cmp.{partial_equiv_from_equiv};
ghost use Rattle.std.specs.Cmp.Lexicographic.{nat_list_cmp_total, nat_list_eq_equiv, pointwise, slice_cmp, texts_po, texts_ties};
ghost use Rattle.std.specs.Ordering.{nat_cmp};
ghost use Rattle.kap_base.specs.Texts.{is_empty};
ghost use Rattle.kap_base.specs.declared.text.TextFault.TheVariants.{NoMemory as no_memory};

use crate::bytes::{are_same, order};
use crate::duplicate::Duplicate;
use crate::memory::NoMemory;
use crate::packed::Packed;
use std::alloc::{AllocError, Global};
use std::cmp::Ordering;
use std::fmt;
use std::marker::Model;

/// A list of bytes that is UTF-8, which contracts see as those bytes. One of up to 16 bytes takes no
/// allocation.
#[derive(Drop)]
pub struct Text {
    packed: Packed,
}

impl Model for Text {
    ghost use Rattle.std.specs.Prelude.{List, ℕ};

    ghost Value = { List ℕ };

    ghost view = { λ t. t.packed };
}

/// Why bytes are no text.
#[derive(Clone, Copy, Debug, PartialEq, Eq)]
pub enum TextFault {
    /// The bytes aren't UTF-8.
    NotUtf8,
    /// Memory ran out.
    NoMemory,
}

impl From<AllocError> for TextFault {
    ghost from_gives = { λ _ e. e ≡ no_memory };

    fn from(_: AllocError) -> Self {
        TextFault::NoMemory
    }
}

impl Text {
    /// The text of these bytes, `NotUtf8` exactly where they aren't UTF-8.
    pub fn from_bytes(alloc: Global, bytes: &[u8]) -> Result<Text, TextFault>
        ensures text { IfOk result (λ t. t ≡ bytes.now) }
        ensures utf8 { IfOk result (λ t. IsUtf8 t) }
        ensures not_utf8 { IsErrOf result TextFault.NotUtf8 → ¬ (IsUtf8 bytes.now) }
    {
        match str::from_utf8(bytes) {
            Ok(text) => Ok(Text {
                packed: Packed::from_str(alloc, text)?,
            }),
            Err(_) => Err(TextFault::NotUtf8),
        }
    }

    /// The text with these bytes, which are UTF-8.
    pub fn from_utf8(bytes: Vec<u8>) -> Text
        requires { IsUtf8 bytes.items }
        ensures { result ≡ bytes.items }
    {
        match String::from_utf8(bytes) {
            Ok(string) => Text::from_string(string),
            Err(_) => unreachable!(),
        }
    }

    /// The text of this `&str`.
    pub fn from_str(alloc: Global, text: &str) -> Result<Text, NoMemory>
        ensures text { IfOk result (λ t. t ≡ text.now) }
        ensures utf8 { IfOk result (λ t. IsUtf8 t) }
    {
        Ok(Text {
            packed: Packed::from_str(alloc, text)?,
        })
    }

    /// The text of the first bytes of a line.
    #[inline(always)]
    pub fn from_front(alloc: Global, line: &str, len: usize) -> Result<Text, NoMemory>
        requires { IsCharBoundary line.now len }
        ensures text { IfOk result (λ t. t ≡ take len line.now) }
        ensures utf8 { IfOk result (λ t. IsUtf8 t) }
    {
        Ok(Text {
            packed: Packed::from_front(alloc, line, len)?,
        })
    }

    /// The text of this string.
    pub fn from_string(string: String) -> Text
        ensures text { result ≡ string_bytes string }
        ensures utf8 { IsUtf8 result }
    {
        Text {
            packed: Packed::from_string(string),
        }
    }

    /// Adds a text at the end. An `Err` changes nothing.
    pub fn append(&mut self, more: &str) -> Result<(), NoMemory>
        ensures ok { OnOk result (self.new ≡ self.old ++ more.now) }
        ensures err { OnErr result (self.new ≡ self.old) }
    {
        self.packed.append(more)?;
        Ok(())
    }

    /// Its bytes.
    pub fn bytes(&self) -> &[u8]
        ensures bytes { result.now ≡ self.now }
        ensures utf8 { IsUtf8 self.now }
    {
        self.as_str().as_bytes()
    }

    /// Its bytes, as text.
    pub fn as_str(&self) -> &str
        ensures { result.now ≡ self.now }
    {
        self.packed.as_str()
    }

    /// Whether it has no bytes.
    pub fn is_empty(&self) -> bool
        ensures { result ≡ is_empty self.now }
    {
        self.as_str().is_empty()
    }

    /// Whether the two texts have the same bytes.
    pub fn is_same(&self, other: &Text) -> bool
        ensures { result ≡ bytes_eq self.now other.now }
    {
        self == other
    }
}

impl PartialEq for Text {
    ghost eq = { λ x y. pointwise nat_eq x y };

    ghost laws = { partial_equiv_from_equiv nat_list_eq_equiv };

    fn eq(&self, other: &Text) -> bool {
        are_same(self.bytes(), other.bytes())
    }
}

impl Eq for Text {
    ghost laws = { nat_list_eq_equiv };
}

impl PartialOrd for Text {
    ghost partial_cmp = { λ x y. Some (slice_cmp nat_cmp x y) };

    ghost laws = { texts_po };

    fn partial_cmp(&self, other: &Text) -> Option<Ordering> {
        Some(self.cmp(other))
    }
}

/// By bytes, from the first on.
impl Ord for Text {
    ghost cmp = { λ x y. slice_cmp nat_cmp x y };

    ghost total = { nat_list_cmp_total };

    ghost matches_partial_cmp = { λ x y. refl };

    ghost matches_eq = { λ x y. texts_ties x y };

    fn cmp(&self, other: &Text) -> Ordering {
        order(self.bytes(), other.bytes())
    }
}

impl fmt::Debug for Text {
    fn fmt<W: fmt::Write>(&self, f: &mut fmt::Formatter<W>) -> fmt::Result {
        fmt::Debug::fmt(self.as_str(), f)
    }
}

impl fmt::Display for Text {
    fn fmt<W: fmt::Write>(&self, f: &mut fmt::Formatter<W>) -> fmt::Result {
        f.write_str(self.as_str())
    }
}

impl Duplicate for Text {
    fn copy(&self, alloc: Global) -> Result<Text, NoMemory>
        ensures copy { IfOk result (λ copy. copy ≡ self.now) }
        ensures utf8 { IfOk result (λ copy. IsUtf8 copy) }
    {
        Ok(Text {
            packed: self.packed.copy(alloc)?,
        })
    }
}
