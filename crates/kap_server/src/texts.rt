//! What is said of a status.

ghost use Rattle.std.specs.Prelude.{◌≡◌, IfOk};
ghost use Rattle.kap_server.specs.Statuses.{part_name, text_of_status};

use crate::status::Status;
use itoa::Buffer;
use kap_base::{Bytes, NoMemory};
use kap_io::Part;
use line_points::{BodyFault, body_text};
use std::alloc::Global;
use tick_compile::script_text;

pub(crate) fn copy_of(alloc: Global, bytes: &[u8]) -> Result<Bytes, NoMemory>
    ensures { IfOk result (λ text. text ≡ bytes.now) }
{
    let mut text = Bytes::new(alloc);
    text.append(bytes)?;
    Ok(text)
}

fn truncated_text(alloc: Global, line: u64) -> Result<Bytes, NoMemory>
    ensures { IfOk result (λ text. text ≡ text_of_status (Status.Truncated line)) }
{
    let mut digits = Buffer::new();
    let mut text = Bytes::new(alloc);
    text.append(b"truncated at line ")?;
    text.append(digits.format(line).as_bytes())?;
    Ok(text)
}

/// The name of a file of a store.
fn part_name(part: Part) -> &'static [u8]
    ensures { result.now ≡ part_name part }
{
    match part {
        Part::Head => b"head",
        Part::Left => b"left",
        Part::Right => b"right",
    }
}

fn no_store_text(alloc: Global, part: Part, offset: u64) -> Result<Bytes, NoMemory>
    ensures { IfOk result (λ text. text ≡ text_of_status (Status.NotStore part offset)) }
{
    let mut digits = Buffer::new();
    let mut text = Bytes::new(alloc);
    text.append(b"not a store: ")?;
    text.append(part_name(part))?;
    text.append(b" at ")?;
    text.append(digits.format(offset).as_bytes())?;
    Ok(text)
}

/// What `kapd` says of a status behind `kapd: ` on standard error, and nothing for `Ok` (this project).
pub fn status_text(alloc: Global, status: &Status) -> Result<Bytes, NoMemory>
    ensures { IfOk result (λ text. text ≡ text_of_status status.now) }
{
    match status {
        Status::Ok => copy_of(alloc, b""),
        Status::Usage => copy_of(alloc, b"usage"),
        Status::Script { fault } => script_text(alloc, fault),
        Status::Line { line, fault } => body_text(
            alloc,
            &BodyFault {
                line: *line,
                fault: *fault,
            },
        ),
        Status::Truncated { line } => truncated_text(alloc, *line),
        Status::NotStore { part, offset } => no_store_text(alloc, *part, *offset),
        Status::NoTask => copy_of(alloc, b"no task"),
        Status::Exists => copy_of(alloc, b"exists"),
        Status::TooManyTasks => copy_of(alloc, b"too many tasks"),
        Status::TooLong => copy_of(alloc, b"too long"),
        Status::NoMemory => copy_of(alloc, b"no memory"),
        Status::ReadFault => copy_of(alloc, b"read fault"),
        Status::WriteFault => copy_of(alloc, b"write fault"),
        Status::DiskFault => copy_of(alloc, b"disk fault"),
    }
}
