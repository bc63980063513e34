//! What the words of a line stand for.

use crate::escapes::unescape;
use crate::fault::LineFault;
use crate::names::{numbers_in, part_of};
use kap_base::{Level, Text};
use kap_io::Part;
use std::alloc::Global;

/// The first word of a text, and what stands behind it.
pub fn first_of(text: &str) -> (&str, &str) {
    match text.split_once(' ') {
        Some(parts) => parts,
        None => (text, ""),
    }
}

/// The bytes that a word stands for.
pub fn bytes(alloc: Global, word: &str) -> Result<Vec<u8>, LineFault> {
    unescape(alloc, word)?.ok_or(LineFault::NoEscape)
}

/// The text that a word stands for.
pub fn string(alloc: Global, word: &str) -> Result<String, LineFault> {
    let bytes = bytes(alloc, word)?;
    match str::from_utf8(&bytes) {
        Ok(text) => Ok(String::from_str(alloc, text)?),
        Err(_) => Err(LineFault::NotUtf8),
    }
}

/// The text that a word stands for.
pub fn text(alloc: Global, word: &str) -> Result<Text, LineFault> {
    Ok(Text::from_string(string(alloc, word)?))
}

/// The number that a word is.
pub fn number(word: &str) -> Result<u64, LineFault> {
    word.parse::<u64>().ok().ok_or(LineFault::NoForm)
}

/// The number that a word is, which may be below 0.
pub fn signed(word: &str) -> Result<i64, LineFault> {
    word.parse::<i64>().ok().ok_or(LineFault::NoForm)
}

/// The numbers that stand in a text, with a space between two.
pub fn numbers(alloc: Global, text: &str) -> Result<Vec<u64>, LineFault> {
    numbers_in(alloc, text, ' ')?.ok_or(LineFault::NoForm)
}

/// The numbers of calls that fail: `-`, or numbers with commas between them.
pub fn calls(alloc: Global, word: &str) -> Result<Vec<u64>, LineFault> {
    if word == "-" {
        return Ok(Vec::new(alloc));
    }
    numbers_in(alloc, word, ',')?.ok_or(LineFault::NoForm)
}

/// The file of a disk that a word names.
pub fn part(word: &str) -> Result<Part, LineFault> {
    part_of(word).ok_or(LineFault::NoForm)
}

/// The level that a word is.
pub fn level(word: &str) -> Result<Level, LineFault> {
    match word {
        "OK" => Ok(Level::Fine),
        "INFO" => Ok(Level::Info),
        "WARNING" => Ok(Level::Warning),
        "CRITICAL" => Ok(Level::Critical),
        _ => Err(LineFault::NoForm),
    }
}
