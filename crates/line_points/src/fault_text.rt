ghost use Rattle.std.specs.Prelude.{◌≡◌, IfOk};
ghost use Rattle.line_points.specs.FaultText.{fault_line, fault_name};

use crate::fault::{BodyFault, LineFault};
use itoa::Buffer;
use kap_base::{Bytes, NoMemory};
use std::alloc::Global;

fn name(fault: LineFault) -> &'static [u8]
    ensures { result.now ≡ fault_name fault }
{
    match fault {
        LineFault::Measurement => b"Measurement",
        LineFault::Tag => b"Tag",
        LineFault::NoField => b"NoField",
        LineFault::Field => b"Field",
        LineFault::FloatField => b"FloatField",
        LineFault::UnsignedField => b"UnsignedField",
        LineFault::Time => b"Time",
        LineFault::TimeRange => b"TimeRange",
        LineFault::NoTime => b"NoTime",
        LineFault::Long => b"Long",
        LineFault::NotUtf8 => b"NotUtf8",
        LineFault::NoMemory => b"NoMemory",
    }
}

/// The text `line N: FAULT` of a body's fault, where FAULT is the fault's name.
pub fn body_text(alloc: Global, fault: &BodyFault) -> Result<Bytes, NoMemory>
    ensures { IfOk result (λ text. text ≡ fault_line fault.now) }
{
    let mut buffer = Buffer::new();
    let mut text = Bytes::new(alloc);
    text.append(b"line ")?;
    text.append(buffer.format(fault.line).as_bytes())?;
    text.append(b": ")?;
    text.append(name(fault.fault))?;
    Ok(text)
}
