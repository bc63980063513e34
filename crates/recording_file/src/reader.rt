ghost use Rattle.std.specs.Prelude.{◌≡◌, false, [], IfOk, IfErr, IfSome, IfNone, IsTrue, is_err};
ghost use Rattle.recording_file.specs.Causes.{HasReadCause};
ghost use Rattle.recording_file.specs.Reading.{ReaderReads, Gives, GaveAll, Fails, HoldsGroup, LeavesSource};

use crate::fault::RecFault;
use crate::got::GivenPoints;
use crate::group::next_point;
use crate::lines::Lines;
use kap_base::{Point, Shared, Text};
use kap_io::Source;
use line_points::Pool;
use std::alloc::Global;
use std::marker::Model;
use std::snapshot::Snapshot;

/// Reads a recording point by point (this project: uncompressed recordings of three lines a point, after
/// Kapacitor 1.6's stream recordings: the database, the retention policy, and the point in line protocol with
/// its time in nanoseconds). A line ends before a line feed, and one carriage return before that isn't part
/// of it; the last line feed may be missing.
#[derive(Drop)]
pub struct Reader {
    lines: Lines,
    db: Text,
    rp: Text,
    given: GivenPoints,
    spent: bool,
    pool: Pool,
}

impl Model for Reader {
    ghost use Rattle.std.specs.Prelude.{◌≡◌, false, IsTrue, not};
    ghost use Rattle.std.specs.Coded.{codes};
    ghost use Rattle.kap_base.specs.Maps.{key_map_code};
    ghost use Rattle.kap_base.specs.Texts.{has_line_feed};
    ghost use Rattle.recording_file.specs.Reading.{ReaderState};
    ghost use Rattle.recording_file.specs.Got.{points_of};
    ghost use Rattle.recording_file.specs.Steps.{StandsAt};

    ghost Value = { ReaderState };

    ghost coded = { Prim.hlevel (codes, key_map_code) };

    ghost view = { λ r. record {
      given = points_of r.given;
      got = r.lines.got;
      ended = r.lines.ended;
      spent = r.spent;
    } };

    ghost invariant = { λ r.
        (r.spent ≡ false → StandsAt (points_of r.given) r.lines)
        × IsTrue (not (has_line_feed r.db))
        × IsTrue (not (has_line_feed r.rp)) };
}

impl Reader {
    /// A reader that has read nothing. It takes no memory.
    pub fn new(alloc: Global) -> Reader
        ensures { result ≡ record { given = []; got = []; ended = false; spent = false } }
    {
        Reader {
            lines: Lines::new(alloc),
            db: Text::from_string(String::new(alloc)),
            rp: Text::from_string(String::new(alloc)),
            given: GivenPoints::Start,
            spent: false,
            pool: Pool::new(alloc),
        }
    }

    /// Whether a call of `next` has failed. A spent reader is only asked this, or dropped.
    pub fn is_spent(&self) -> bool
        ensures { result ≡ self.now.spent }
    {
        self.spent
    }

    /// Whether `next` surely answers without asking the source: where the next three lines were read, or all.
    /// It takes the same time always.
    pub fn holds_point(&self) -> bool
        ensures { self.now.spent ≡ false → IsTrue result → HoldsGroup self.now }
    {
        self.lines.holds_group()
    }

    /// Has next points be read in the memory of these, as far as nobody else has them then.
    pub fn reuse(&mut self, points: Vec<Shared<Point>>)
        ensures { self.new ≡ self.old }
    {
        self.pool.fill(points);
    }

    /// The next point, or `None` where the source ended between two groups, and again whenever it is asked
    /// behind that; a source that has ended isn't asked again.
    ///
    /// `Line` comes where that line, numbered from 1, is no database or policy (UTF-8 of at most `LINE_LIMIT`
    /// bytes) or no line of the line protocol; `Truncated` where the source ended inside a group and that
    /// line is missing; `Long` where the group isn't complete within the recording's first `RECORDING_LIMIT`
    /// bytes, and more follow. Whichever comes first in the bytes is given. `ReadFault` comes only where the
    /// source's count of faults rose in this call, and the bytes read before leave open how the recording
    /// goes on. After any `Err` the reader is spent.
    pub fn next<S: Source>(
        &mut self,
        alloc: Global,
        source: &mut S,
    ) -> Result<Option<Shared<Point>>, RecFault>
        requires { self.old.spent ≡ false }
        // The bytes that it has read are those that the source has given.
        ensures reads { ReaderReads self.old self.new (S.left source.old) (S.left source.new) }
        // The point that it gives is the next one of any recording that begins with these bytes.
        ensures point { IfOk result (λ o. IfSome o (Gives self.old self.new)) }
        // At `None` these bytes are a recording, and its points were given.
        ensures end { IfOk result (λ o. IfNone o (GaveAll self.old self.new)) }
        // Each fault is that of any bytes that begin with these, and the points before it were given.
        ensures fault { IfErr result (Fails self.old self.new) }
        ensures spent { self.new.spent ≡ is_err result }
        // The source isn't asked where the lines of the next group were read, or all.
        ensures held { LeavesSource self.old source.old source.new }
        ensures cause { HasReadCause (S.faults source.old) (S.faults source.new) result }
    {
        let next = next_point(
            alloc,
            &mut self.lines,
            source,
            &mut self.db,
            &mut self.rp,
            &mut self.pool,
        );
        match next {
            Ok(Some(point)) => {
                let before = Snapshot::of(&self.given);
                self.given = GivenPoints::More(before, Snapshot::of(&point));
                Ok(Some(point))
            }
            Ok(None) => Ok(None),
            Err(fault) => {
                self.spent = true;
                Err(fault)
            }
        }
    }
}
