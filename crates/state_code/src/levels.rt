//! Levels, and the value that says nothing.

ghost use Rattle.state_code.specs.Levels.{FitsLevel, spell_level, read_level, level_spelled, FitsUnit, spell_unit, read_unit, unit_spelled};

use crate::cursor::Cursor;
use crate::fault::CodeFault;
use crate::fields::put_u8;
use crate::spelled::Spelled;
use kap_base::{Bytes, Level, NoMemory};
use std::alloc::Global;

/// A byte from 0, which is `Fine`, to 3, which is `Critical`.
impl Spelled for Level {
    ghost fits = { FitsLevel };

    ghost spell = { spell_level };

    ghost read = { read_level };

    ghost spelled = { level_spelled };

    fn append_spelling(&self, to: &mut Bytes) -> Result<(), NoMemory> {
        match self {
            Level::Fine => put_u8(to, 0),
            Level::Info => put_u8(to, 1),
            Level::Warning => put_u8(to, 2),
            Level::Critical => put_u8(to, 3),
        }
    }

    fn read_spelling(alloc: Global, from: &mut Cursor) -> Result<Level, CodeFault> {
        let _ = alloc;
        match from.u8()? {
            0 => Ok(Level::Fine),
            1 => Ok(Level::Info),
            2 => Ok(Level::Warning),
            3 => Ok(Level::Critical),
            _ => Err(CodeFault::At(from.offset())),
        }
    }
}

/// No bytes.
impl Spelled for () {
    ghost fits = { FitsUnit };

    ghost spell = { spell_unit };

    ghost read = { read_unit };

    ghost spelled = { unit_spelled };

    fn append_spelling(&self, to: &mut Bytes) -> Result<(), NoMemory> {
        let _ = to;
        Ok(())
    }

    fn read_spelling(alloc: Global, from: &mut Cursor) -> Result<(), CodeFault> {
        let _ = alloc;
        let _ = from;
        Ok(())
    }
}
