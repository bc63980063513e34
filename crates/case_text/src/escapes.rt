//! Bytes that are written as text: `\\` is a backslash, `\n`, `\r` and `\t` are themselves, and `\xHH` is any
//! byte.

ghost use Rattle.std.specs.Prelude.{◌<◌, IfSome, length};

use kap_base::{Bytes, NoMemory};
use std::alloc::Global;

/// The value of a hexadecimal digit.
fn digit(byte: u8) -> Option<u8>
    ensures { IfSome result (λ value. value < 16) }
{
    match byte {
        b'0'..=b'9' => Some(byte - b'0'),
        b'a'..=b'f' => Some(byte - b'a' + 10),
        _ => None,
    }
}

/// The byte that the escape behind a backslash stands for, and the bytes behind it.
fn escape(bytes: &[u8]) -> Option<(u8, &[u8])>
    ensures { IfSome result (λ r. length r.1.now < length bytes.now) }
{
    match bytes {
        [b'\\', rest @ ..] => Some((b'\\', rest)),
        [b'n', rest @ ..] => Some((b'\n', rest)),
        [b'r', rest @ ..] => Some((b'\r', rest)),
        [b't', rest @ ..] => Some((b'\t', rest)),
        [b'x', high, low, rest @ ..] => Some((digit(*high)? * 16 + digit(*low)?, rest)),
        _ => None,
    }
}

/// The bytes that an escaped text stands for; none where a backslash begins no escape.
pub fn unescape(alloc: Global, text: &str) -> Result<Option<Vec<u8>>, NoMemory> {
    let mut bytes = Vec::new(alloc);
    let mut rest = text.as_bytes();
    'bytes: while let Some((byte, behind)) = rest.split_first() {
        if *byte == b'\\' {
            let Some((byte, behind)) = escape(behind) else {
                return Ok(None);
            };
            bytes.push(byte)?;
            rest = behind;
        } else {
            bytes.push(*byte)?;
            rest = behind;
        }
    }
    Ok(Some(bytes))
}

/// The hexadecimal digit of a number.
fn digit_of(number: u8) -> u8
    requires { number < 16 }
{
    if number < 10 {
        b'0' + number
    } else {
        b'a' + (number - 10)
    }
}

/// Adds a byte, escaped where it is no printed ASCII character.
fn put_byte(byte: u8, to: &mut Bytes) -> Result<(), NoMemory> {
    match byte {
        b'\\' => to.append(b"\\\\"),
        b'\n' => to.append(b"\\n"),
        b'\r' => to.append(b"\\r"),
        b'\t' => to.append(b"\\t"),
        b' '..=b'~' => to.push(byte),
        _ => to.append(&[b'\\', b'x', digit_of(byte / 16), digit_of(byte % 16)]),
    }
}

/// Adds bytes, escaped.
pub fn put_shown(bytes: &[u8], to: &mut Bytes) -> Result<(), NoMemory> {
    for byte in bytes {
        put_byte(*byte, to)?;
    }
    Ok(())
}
