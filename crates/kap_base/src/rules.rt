//! What texts, values and names of points may be, as tests.

ghost use Rattle.std.specs.Prelude.{◌≡◌, ◌&&◌};
ghost use Rattle.std.specs.List.{list_all};
ghost use Rattle.std.specs.Str.{is_utf8};
ghost use Rattle.kap_base.specs.Points.{are_dimensions, is_value, rises};
ghost use Rattle.kap_base.specs.Texts.{begins_with, ends_with, has_line_feed, is_id_byte, is_line, is_measurement, is_name, is_task_id};
ghost use Rattle.kap_base.specs.declared.value.Value.TheVariants.{Int as Number};

use crate::Names;
use crate::limits::ID_LIMIT;
use crate::text::Text;
use crate::value::Value;

fn has_line_feed(bytes: &[u8]) -> bool
    ensures { result ≡ has_line_feed bytes.now }
{
    bytes.iter().any(|b| *b == b'\n')
}

fn begins_with(byte: u8, bytes: &[u8]) -> bool
    ensures { result ≡ begins_with byte bytes.now }
{
    match bytes.split_first() {
        Some((first, _)) => *first == byte,
        None => false,
    }
}

fn ends_with(byte: u8, bytes: &[u8]) -> bool
    ensures { result ≡ ends_with byte bytes.now }
{
    let mut rest = bytes;
    'passing: while let Some((first, others)) = rest.split_first() {
        if others.is_empty() {
            return *first == byte;
        }
        rest = others;
    }
    false
}

impl Text {
    /// Whether it has no line feed: it may stand on one line.
    #[tactic(auto, using(crate::proofs::TextLaws::text_is_utf8))]
    pub fn is_line(&self) -> bool
        ensures { result ≡ is_line self.now }
    {
        !has_line_feed(self.bytes())
    }

    /// Whether it can be a key of a tag or a field, or the value of a tag: not empty, without a line feed,
    /// and not ending in a backslash.
    pub fn is_name(&self) -> bool
        ensures { result ≡ is_name self.now }
    {
        if self.is_empty() {
            return false;
        }
        if ends_with(b'\\', self.bytes()) {
            return false;
        }
        self.is_line()
    }

    /// Whether it can be a measurement: such a text that doesn't begin with `#`, with which comments begin.
    pub fn is_measurement(&self) -> bool
        ensures { result ≡ is_measurement self.now }
    {
        if begins_with(b'#', self.bytes()) {
            return false;
        }
        self.is_name()
    }
}

/// Each integer of 64 bits is a value of a field.
#[tactic(auto, using(crate::proofs::TextLaws::number_fits))]
fn fits_field(number: i64) -> bool
    ensures { result ≡ is_value (Number number) }
{
    let _number = number;
    true
}

impl Value {
    /// Whether a field can hold it: an integer, a truth value, or a text without a line feed.
    pub fn fits_field(&self) -> bool
        ensures { result ≡ is_value self.now }
    {
        match self {
            Value::Int(number) => fits_field(*number),
            Value::Bool(_) => true,
            Value::Str(text) => text.is_line(),
        }
    }
}

/// Whether each text stands below the next one.
fn rise(names: &[Text]) -> bool
    ensures { result ≡ rises names.now }
{
    let mut rest = names;
    'passing: while let Some((first, others)) = rest.split_first() {
        let Some(next) = others.first() else {
            return true;
        };
        if !first.cmp(next).is_lt() {
            return false;
        }
        rest = others;
    }
    true
}

#[tactic(auto, using(crate::proofs::TextLaws::text_is_utf8))]
fn is_utf8(text: &Text) -> bool
    ensures { result ≡ is_utf8 text.now }
{
    // Only a call says that the bytes of a text are UTF-8.
    let _bytes = text.bytes();
    true
}

fn are_utf8(names: &[Text]) -> bool
    ensures { result ≡ list_all is_utf8 names.now }
{
    names.iter().all(|name| is_utf8(name))
}

/// Whether these can be the dimensions of a point: in byte order, each once.
pub fn are_dimensions(names: &Names) -> bool
    ensures { result ≡ are_dimensions names.now }
{
    if !rise(names.as_slice()) {
        return false;
    }
    are_utf8(names.as_slice())
}

fn is_id_byte(byte: u8) -> bool
    ensures { result ≡ is_id_byte byte }
{
    byte.is_ascii_alphanumeric() || byte == b'_' || byte == b'-' || byte == b'.'
}

fn has_id_bytes(bytes: &[u8]) -> bool
    ensures { result ≡ list_all is_id_byte bytes.now }
{
    bytes.iter().all(|byte| is_id_byte(*byte))
}

/// Whether these bytes can be the id of a task: 1 to `ID_LIMIT` bytes, each an ASCII letter, a digit, `_`,
/// `-` or `.`.
pub fn is_task_id(id: &[u8]) -> bool
    ensures { result ≡ is_task_id id.now }
{
    !id.is_empty() && id.len() <= ID_LIMIT && has_id_bytes(id)
}
