//! Numbers with texts before them.

use kap_base::{Bytes, NoMemory};
use std::alloc::Global;

/// Adds a text, and a number behind it.
pub fn put_number(
    alloc: Global,
    before: &str,
    number: u64,
    to: &mut Bytes,
) -> Result<(), NoMemory> {
    to.append(format!(in alloc; "{before}{number}")?.as_bytes())
}

/// Adds numbers, each behind its text.
pub fn put_numbers(alloc: Global, numbers: &[(&str, u64)], to: &mut Bytes) -> Result<(), NoMemory> {
    for (before, number) in numbers {
        put_number(alloc, before, *number, to)?;
    }
    Ok(())
}
