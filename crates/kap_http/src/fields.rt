ghost use Rattle.std.specs.Prelude.{◌≡◌, ◌<◌, ◌≤◌, ◌||◌, [], ◌∷◌, IfOk, IfErr, length, map, All, Some, None, Ok, Err, min, IsTrue, option_map, option_to_list};
ghost use Rattle.std.specs.List.{list_all, list_any};
ghost use Rattle.std.specs.Char.{is_ascii_digit};
ghost use Rattle.std.specs.Str.{str_eq_ignore_ascii_case};
ghost use Rattle.std.specs.Str.Parse.{digits_value};
ghost use Rattle.httparse.specs.Spans.{IsHeaderWithin, header_bytes};
ghost use Rattle.kap_http.specs.Fields.{shows, is_length, lengths, length_of, length_within, body_len, is_digits};

use crate::fault::HttpFault;
use httparse::spans::HeaderSpan;

/// What a field can show, beside the length of the body.
#[derive(Clone, Copy, Debug, PartialEq, Eq)]
pub enum Sign {
    /// The body comes in a transfer coding.
    Transfer,
    /// The body is encoded.
    Encoded,
    /// The connection ends behind the reply.
    Close,
}

fn is_word(bytes: &[u8], word: &[u8]) -> bool
    ensures { result ≡ str_eq_ignore_ascii_case bytes.now word.now }
{
    bytes.eq_ignore_ascii_case(word)
}

fn shows(sign: Sign, name: &[u8], value: &[u8]) -> bool
    ensures { result ≡ shows sign (name.now, value.now) }
{
    match sign {
        Sign::Transfer => is_word(name, b"transfer-encoding"),
        Sign::Encoded => is_word(name, b"content-encoding") && !is_word(value, b"identity"),
        Sign::Close => is_word(name, b"connection") && is_word(value, b"close"),
    }
}

/// Whether some field shows this.
pub fn any_shows(sign: Sign, buffer: &[u8], headers: &[HeaderSpan]) -> bool
    requires { All (IsHeaderWithin (length buffer.now)) headers.now }
    ensures { result ≡ list_any (shows sign) (map (header_bytes buffer.now) headers.now) }
{
    let mut rest = headers;
    'fields: while let Some((header, behind)) = rest.split_first() {
        if shows(sign, header.name.of(buffer), header.value.of(buffer)) {
            return true;
        }
        rest = behind;
    }
    false
}

/// The value of the one field that gives the length of the body; `Bad` where there are more.
fn length_field<'b>(buffer: &'b [u8], headers: &[HeaderSpan]) -> Result<Option<&'b [u8]>, HttpFault>
    requires { All (IsHeaderWithin (length buffer.now)) headers.now }
    ensures found { IfOk result (λ o. lengths (map (header_bytes buffer.now) headers.now)
        ≡ option_to_list (option_map (λ v. v.now) o)) }
    ensures fault { IfErr result (λ f. f ≡ HttpFault.Bad) }
    ensures twice { IfErr result (λ _.
        length_of (lengths (map (header_bytes buffer.now) headers.now)) ≡ Err HttpFault.Bad) }
{
    let mut rest = headers;
    let mut found = None;
    'fields: while let Some((header, behind)) = rest.split_first() {
        if is_length(header.name.of(buffer)) {
            if found.is_some() {
                return Err(HttpFault::Bad);
            }
            found = Some(header.value.of(buffer));
        }
        rest = behind;
    }
    Ok(found)
}

fn is_length(name: &[u8]) -> bool
    ensures { result ≡ is_length (name.now, []) }
{
    is_word(name, b"content-length")
}

fn all_digits(bytes: &[u8]) -> bool
    ensures { result ≡ list_all is_ascii_digit bytes.now }
{
    bytes.iter().all(|b| b.is_ascii_digit())
}

/// Whether there are bytes, and all are digits.
fn is_digits(bytes: &[u8]) -> bool
    ensures { result ≡ is_digits bytes.now }
{
    !bytes.is_empty() && all_digits(bytes)
}

fn magnitude(digits: &[u8]) -> u64
    requires { IsTrue (list_all is_ascii_digit digits.now) }
    ensures { result ≡ min (digits_value 10 digits.now) u64.MAX }
{
    let mut value = 0u64;
    'digits: for digit in digits {
        value = value
            .saturating_mul(10)
            .saturating_add(u64::from(*digit - b'0'));
    }
    value
}

/// The length that the value of the one field gives.
fn read_length(value: &[u8], limit: u64) -> Result<u64, HttpFault>
    requires { limit < u64.MAX }
    ensures len { result ≡ length_within limit (value.now ∷ []) }
    ensures within { IfOk result (λ len. len ≤ limit) }
{
    if !is_digits(value) {
        return Err(HttpFault::Bad);
    }
    let len = magnitude(value);
    if limit < len {
        return Err(HttpFault::Large);
    }
    Ok(len)
}

fn is_refused(buffer: &[u8], headers: &[HeaderSpan]) -> bool
    requires { All (IsHeaderWithin (length buffer.now)) headers.now }
    ensures { result ≡ (list_any (shows Sign.Transfer) (map (header_bytes buffer.now) headers.now)
        || list_any (shows Sign.Encoded) (map (header_bytes buffer.now) headers.now)) }
{
    any_shows(Sign::Transfer, buffer, headers) || any_shows(Sign::Encoded, buffer, headers)
}

/// The length of the body, by the fields of its head.
#[tactic(auto, unfolding(crate::specs::Fields::body_len))]
pub fn body_len(buffer: &[u8], headers: &[HeaderSpan], limit: u64) -> Result<u64, HttpFault>
    requires fields { All (IsHeaderWithin (length buffer.now)) headers.now }
    requires limit { limit < u64.MAX }
    ensures len { result ≡ body_len limit (map (header_bytes buffer.now) headers.now) }
    ensures within { IfOk result (λ len. len ≤ limit) }
{
    if is_refused(buffer, headers) {
        return Err(HttpFault::Bad);
    }
    match length_field(buffer, headers)? {
        Some(value) => read_length(value, limit),
        None => Ok(0),
    }
}
