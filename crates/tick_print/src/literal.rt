//! Literals, references and operators.

ghost use Rattle.std.specs.Prelude.{◌≡◌, ◌++◌, ◌<◌, OnOk, string_bytes};
ghost use Rattle.kap_base.specs.Texts.{backslash, ends_with};
ghost use Rattle.tick_lexer.specs.Spelling.{escaped, operator_bytes, unit_bytes};
ghost use Rattle.tick_print.specs.Print.{counted, divides, duration_text, in_quotes, largest_unit, lit_text, string_text};

use kap_base::{Lit, NoMemory, Op};
use tick_lexer::Unit;

/// How an operator is spelled.
pub fn spelling(op: Op) -> &'static str
    ensures { result.now ≡ operator_bytes op }
{
    match op {
        Op::Or => "OR",
        Op::And => "AND",
        Op::Eq => "==",
        Op::Ne => "!=",
        Op::Match => "=~",
        Op::NoMatch => "!~",
        Op::Lt => "<",
        Op::Le => "<=",
        Op::Gt => ">",
        Op::Ge => ">=",
        Op::Add => "+",
        Op::Sub => "-",
        Op::Mul => "*",
        Op::Div => "/",
        Op::Rem => "%",
    }
}

/// Appends a text with a backslash before each quote.
fn write_escaped(quote: u8, text: &str, out: &mut String) -> Result<(), NoMemory>
    requires { quote < 128 }
    ensures { OnOk result (string_bytes out.new ≡ string_bytes out.old ++ escaped quote text.now) }
{
    let mut start = 0;
    'bytes: for (index, byte) in text.as_bytes().iter().enumerate() {
        if *byte == quote {
            out.push_str(&text[start..index])?;
            out.push('\\')?;
            start = index;
        }
    }
    out.push_str(&text[start..])?;
    Ok(())
}

/// Appends a text in quotes.
pub fn write_quoted(quote: char, text: &str, out: &mut String) -> Result<(), NoMemory>
    requires { quote < 128 }
    ensures { OnOk result
        (string_bytes out.new ≡ string_bytes out.old ++ in_quotes quote text.now) }
{
    out.push(quote)?;
    write_escaped(quote as u8, text, out)?;
    out.push(quote)?;
    Ok(())
}

/// Whether a text ends in a backslash.
fn ends_in_backslash(text: &[u8]) -> bool
    ensures { result ≡ ends_with backslash text.now }
{
    match text.split_last() {
        Some((last, _)) => *last == b'\\',
        None => false,
    }
}

/// Appends a string.
fn write_string(text: &str, out: &mut String) -> Result<(), NoMemory>
    ensures { OnOk result (string_bytes out.new ≡ string_bytes out.old ++ string_text text.now) }
{
    if ends_in_backslash(text.as_bytes()) {
        out.push_str("'''")?;
        out.push_str(text)?;
        out.push_str("'''")?;
        return Ok(());
    }
    write_quoted('\'', text, out)
}

fn divides(unit: Unit, nanos: u64) -> bool
    ensures { result ≡ divides unit nanos }
{
    nanos % unit.nanos() == 0
}

/// The largest unit that divides this many nanoseconds; the least one where none does.
fn largest_unit(nanos: u64) -> Unit
    ensures { result ≡ largest_unit nanos }
{
    if divides(Unit::Week, nanos) {
        Unit::Week
    } else if divides(Unit::Day, nanos) {
        Unit::Day
    } else if divides(Unit::Hour, nanos) {
        Unit::Hour
    } else if divides(Unit::Minute, nanos) {
        Unit::Minute
    } else if divides(Unit::Second, nanos) {
        Unit::Second
    } else if divides(Unit::Milli, nanos) {
        Unit::Milli
    } else {
        Unit::Micro
    }
}

/// How a unit is spelled.
fn letters(unit: Unit) -> &'static str
    ensures { result.now ≡ unit_bytes unit }
{
    match unit {
        Unit::Week => "w",
        Unit::Day => "d",
        Unit::Hour => "h",
        Unit::Minute => "m",
        Unit::Second => "s",
        Unit::Milli => "ms",
        Unit::Micro => "u",
        Unit::MicroSign => "µ",
    }
}

/// Appends so many nanoseconds in a unit.
fn write_count(nanos: u64, unit: Unit, out: &mut String) -> Result<(), NoMemory>
    ensures { OnOk result (string_bytes out.new ≡ string_bytes out.old ++ counted nanos unit) }
{
    write!(out, "{}", nanos / unit.nanos())?;
    out.push_str(letters(unit))?;
    Ok(())
}

/// Appends a duration.
fn write_duration(nanos: i64, out: &mut String) -> Result<(), NoMemory>
    ensures { OnOk result (string_bytes out.new ≡ string_bytes out.old ++ duration_text nanos) }
{
    if nanos < 0 {
        out.push('-')?;
    }
    let span = nanos.unsigned_abs();
    let unit = if span == 0 {
        Unit::Second
    } else {
        largest_unit(span)
    };
    write_count(span, unit, out)
}

/// Appends a literal.
pub fn write_lit(lit: &Lit, out: &mut String) -> Result<(), NoMemory>
    ensures { OnOk result (string_bytes out.new ≡ string_bytes out.old ++ lit_text lit.now) }
{
    match lit {
        Lit::Int(number) => Ok(write!(out, "{number}")?),
        Lit::Dur(nanos) => write_duration(*nanos, out),
        Lit::Str(text) => write_string(text.as_str(), out),
        Lit::Bool(true) => Ok(out.push_str("TRUE")?),
        Lit::Bool(false) => Ok(out.push_str("FALSE")?),
        Lit::Regex(pattern) => write_quoted('/', pattern.as_str(), out),
    }
}
