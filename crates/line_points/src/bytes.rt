ghost use Rattle.std.specs.Prelude.{◌≡◌, ◌==◌, ◌||◌, ◌≤◌, ◌<◌, position, is_ok, IfOk, IfErr};
ghost use Rattle.std.specs.Char.{is_ascii};
ghost use Rattle.std.specs.Str.{is_utf8};
ghost use Rattle.std.specs.List.{list_all, position_or_len};
ghost use Rattle.kap_base.specs.Texts.{begins_with};
ghost use Rattle.line_points.specs.Parts.{is_separator, without_spaces};
ghost use Rattle.line_points.specs.Line.{is_blank};

use crate::fault::LineFault;

/// Whether the byte stands at the front.
pub fn begins_with(bytes: &[u8], byte: u8) -> bool
    ensures { result ≡ begins_with byte bytes.now }
{
    match bytes.first() {
        Some(first) => *first == byte,
        None => false,
    }
}

/// The bytes from the first one on that is no space.
pub fn without_spaces(bytes: &[u8]) -> &[u8]
    ensures { result.now ≡ without_spaces bytes.now }
{
    let mut rest = bytes;
    'spaces: while let Some((b' ', behind)) = rest.split_first() {
        rest = behind;
    }
    rest
}

/// Whether the line holds nothing, or a comment.
pub fn is_blank(line: &[u8]) -> bool
    ensures { result ≡ is_blank (without_spaces line.now) }
{
    match without_spaces(line).first() {
        Some(first) => *first == b'#',
        None => true,
    }
}

/// Whether all bytes are ASCII. It looks at each of them, so that it can look at many at once.
fn is_ascii(bytes: &[u8]) -> bool
    ensures { result ≡ list_all is_ascii bytes.now }
{
    let mut ascii = true;
    'looking: for byte in bytes {
        ascii &= *byte < 128;
    }
    ascii
}

/// The line as text.
pub fn text(line: &[u8]) -> Result<&str, LineFault>
    ensures text { IfOk result (λ s. s.now ≡ line.now) }
    ensures fault { IfErr result (λ e. e ≡ LineFault.NotUtf8) }
    ensures valid { is_ok result ≡ is_utf8 line.now }
{
    if is_ascii(line) {
        return Ok(unsafe { str::from_utf8_unchecked(line) });
    }
    match str::from_utf8(line) {
        Ok(text) => Ok(text),
        Err(_) => Err(LineFault::NotUtf8),
    }
}

/// Where the byte stands first.
pub fn byte_place(bytes: &[u8], byte: u8) -> Option<usize>
    ensures { result ≡ position (λ b. b == byte) bytes.now }
{
    bytes.iter().position(|b| *b == byte)
}

/// Where one of the two bytes stands first.
pub fn either_place(bytes: &[u8], one: u8, other: u8) -> Option<usize>
    ensures { result ≡ position (λ b. b == one || b == other) bytes.now }
{
    bytes.iter().position(|b| *b == one || *b == other)
}

/// How many bytes stand before the first comma or space.
pub fn word_len(bytes: &[u8]) -> usize
    ensures { result ≡ position_or_len is_separator bytes.now }
{
    match either_place(bytes, b',', b' ') {
        Some(at) => at,
        None => bytes.len(),
    }
}

/// How many commas there are, at most 16: a guess alone where there are more than 255. Those that are escaped
/// or quoted count, too. It looks at each byte, so that it can look at many at once.
pub fn comma_count(bytes: &[u8]) -> usize
    ensures { result ≤ 16 }
{
    let mut count = 0u8;
    'counting: for byte in bytes {
        count = count.wrapping_add(u8::from(*byte == b','));
    }
    usize::from(count).min(16)
}
