ghost use Rattle.std.specs.Prelude.{◌≡◌};
ghost use Rattle.kap_base.specs.Texts.{has_line_feed};

use crate::fault::LineFault;
use kap_base::{Point, Text};
use line_points::read_stored;
use std::alloc::Global;

fn has_feed(bytes: &[u8]) -> bool
    ensures { result ≡ has_line_feed bytes.now }
{
    bytes.iter().any(|b| *b == b'\n')
}

/// The point of a line, of a database and a policy.
pub fn point_of(alloc: Global, line: &[u8], db: &Text, rp: &Text) -> Result<Point, LineFault> {
    if has_feed(line) || has_feed(db.bytes()) || has_feed(rp.bytes()) {
        return Err(LineFault::NoForm);
    }
    Ok(read_stored(alloc, line, db, rp)?)
}
