ghost use Rattle.std.specs.Prelude.{◌≡◌, ◌≢◌, ◌⊎◌, false, ◌+◌, not, ◌<◌, ◌≤◌, [], length, take, IsTrue, IfOk, IfErr, IfSome, IfNone, OnOk, OnErr};
ghost use Rattle.std.specs.Bool.{OnTrue, OnFalse};
ghost use Rattle.std.specs.List.{position_or_len};
ghost use Rattle.kap_base.specs.Texts.{has_line_feed};
ghost use Rattle.line_points.specs.declared.line.TheConstants.{LINE_LIMIT};
ghost use Rattle.line_points.specs.Body.{without_return};
ghost use Rattle.recording_file.specs.Causes.{HasReadCause};
ghost use Rattle.recording_file.specs.Lines.{is_feed, is_long};
ghost use Rattle.recording_file.specs.Finding.{ReadPlace, Stays, room, IsLine, IsUndecided, FindsNone, HoldsLines, Passes};

use crate::fault::RecFault;
use crate::feeds::{LastFeeds, begins_line, last_feeds, line_end};
use crate::got::GotBytes;
use crate::window::Window;
use kap_io::Source;
use line_points::{LINE_LIMIT, LineFault, without_return};
use std::alloc::Global;
use std::marker::Model;
use std::snapshot::Snapshot;

/// The most bytes of a recording: 1 GiB.
pub const RECORDING_LIMIT: u64 = 1 << 30;

/// The lines of a recording, one after the other.
#[derive(Drop)]
pub struct Lines {
    window: Window,
    got: GotBytes,
    line: u64,
    passed: u64,
    ended: bool,
    feeds: LastFeeds,
}

impl Model for Lines {
    ghost use Rattle.std.specs.Prelude.{◌≡◌, false, ◌+◌, ◌≤◌};
    ghost use Rattle.std.specs.List.{count_by};
    ghost use Rattle.recording_file.specs.declared.lines.TheConstants.{RECORDING_LIMIT};
    ghost use Rattle.recording_file.specs.Feeds.{ShowFeeds};
    ghost use Rattle.recording_file.specs.Finding.{ReadPlace};
    ghost use Rattle.recording_file.specs.Got.{bytes_of};
    ghost use Rattle.recording_file.specs.Lines.{is_feed};

    ghost Value = { ReadPlace };

    ghost view = { λ l. record {
      bytes = l.window;
      got = bytes_of l.got;
      line = l.line;
      passed = l.passed;
      ended = l.ended;
    } };

    ghost invariant = { λ l.
        (l.passed ≤ RECORDING_LIMIT) × (1 ≤ l.line) × (l.line ≤ l.passed + 1)
        × (l.ended ≡ false
        → count_by is_feed (bytes_of l.got) + 1 ≡ l.line + count_by is_feed l.window)
        × ShowFeeds l.passed l.window l.feeds };
}

impl Lines {
    /// The lines of a recording of which nothing was read.
    pub fn new(alloc: Global) -> Lines
        ensures { result ≡ record { bytes = []; got = []; line = 1; passed = 0; ended = false } }
    {
        Lines {
            window: Window::new(alloc),
            got: GotBytes::Start,
            line: 1,
            passed: 0,
            ended: false,
            feeds: LastFeeds::none(),
        }
    }

    /// Whether the next three lines are there, or all bytes.
    pub fn holds_group(&self) -> bool
        ensures { IsTrue result → HoldsLines 3 self.now }
    {
        self.ended || self.passed < self.feeds.third
    }

    /// The number of the next line, from 1.
    pub fn line(&self) -> u64
        ensures { result ≡ self.now.line }
    {
        self.line
    }

    /// How many bytes may still be passed.
    fn room(&self) -> usize
        ensures { result ≡ room self.now }
    {
        (RECORDING_LIMIT - self.passed) as usize
    }

    /// Whether the first `size` bytes are too many for a line.
    fn is_too_long(&self, size: usize) -> bool
        requires { size ≤ length self.now.bytes }
        ensures { result ≡ is_long (without_return (take size self.now.bytes)) }
    {
        let (line, _) = self.window.bytes().split_at(size);
        LINE_LIMIT < without_return(line).len()
    }

    /// Why a line that isn't ended within the limit can't go on.
    fn limit_fault(&self) -> RecFault
        requires no_feed { room self.now ≤ position_or_len is_feed self.now.bytes }
        requires more { room self.now < length self.now.bytes }
        ensures fault { FindsNone self.now result }
        ensures told { result ≢ RecFault.ReadFault }
    {
        if self.is_too_long(self.room()) {
            return RecFault::Line {
                line: self.line,
                fault: LineFault::Long,
            };
        }
        RecFault::Long
    }

    /// Whether the next line, all of whose bytes are there without a line feed, may go on.
    fn check_limits(&self, size: usize) -> Result<(), RecFault>
        requires no_feed { position_or_len is_feed self.now.bytes ≡ size }
        requires all { size ≡ length self.now.bytes }
        ensures ok { OnOk result (IsUndecided self.now) }
        ensures fault { IfErr result (FindsNone self.now) }
        ensures told { IfErr result (λ f. f ≢ RecFault.ReadFault) }
    {
        if self.room() < size {
            return Err(self.limit_fault());
        }
        if self.is_too_long(size) {
            return Err(RecFault::Line {
                line: self.line,
                fault: LineFault::Long,
            });
        }
        Ok(())
    }

    /// The size of a line whose line feed was found.
    fn checked_size(&self, size: usize) -> Result<usize, RecFault>
        requires found { size ≡ position_or_len is_feed self.now.bytes }
        requires within { size < length self.now.bytes }
        ensures line { IfOk result (IsLine self.now) }
        ensures fault { IfErr result (FindsNone self.now) }
        ensures told { IfErr result (λ f. f ≢ RecFault.ReadFault) }
    {
        if self.room() <= size {
            return Err(self.limit_fault());
        }
        Ok(size)
    }

    /// Reads a piece of the source behind the bytes that are there, which are so many; false at its end.
    fn fill<S: Source>(&mut self, source: &mut S, size: usize) -> Result<bool, RecFault>
        requires all { size ≡ length self.old.bytes }
        requires not_ended { self.old.ended ≡ false }
        ensures stays { Stays self.old self.new (S.left source.old) (S.left source.new) }
        ensures more { IfOk result (λ more. OnTrue more (size < length self.new.bytes)) }
        ensures at_end { IfOk result (λ more. OnFalse more
            ((self.new.bytes ≡ self.old.bytes) × IsTrue self.new.ended)) }
        ensures fault { IfErr result (λ f. (f ≡ RecFault.ReadFault) ⊎ (f ≡ RecFault.NoMemory)) }
        ensures kept { OnErr result (self.new ≡ self.old) }
        ensures cause { HasReadCause (S.faults source.old) (S.faults source.new) result }
    {
        let count = self.window.fill(source)?;
        let before = Snapshot::of(&self.got);
        self.got = GotBytes::More(before, Snapshot::of(&self.window), Snapshot::of(&size));
        let (_, piece) = self.window.bytes().split_at(size);
        self.feeds = last_feeds(piece, self.passed.saturating_add(size as u64), self.feeds);
        self.ended = count == 0;
        Ok(count != 0)
    }

    /// Reads on behind a line that isn't ended; false at the source's end, behind which it isn't asked again.
    fn read_on<S: Source>(&mut self, source: &mut S, size: usize) -> Result<bool, RecFault>
        requires no_feed { position_or_len is_feed self.old.bytes ≡ size }
        requires all { size ≡ length self.old.bytes }
        ensures stays { Stays self.old self.new (S.left source.old) (S.left source.new) }
        ensures more { IfOk result (λ more. OnTrue more (size < length self.new.bytes)) }
        ensures searched { IfOk result (λ more. OnTrue more
            (size ≤ position_or_len is_feed self.new.bytes)) }
        ensures undecided { OnOk result (IsUndecided self.old) }
        ensures at_end { IfOk result (λ more. OnFalse more
            ((self.new.bytes ≡ self.old.bytes) × IsTrue self.new.ended)) }
        ensures fault { IfErr result (FindsNone self.new) }
        ensures ended { IsTrue self.old.ended
            → (self.new ≡ self.old) × (source.new ≡ source.old) }
        ensures cause { HasReadCause (S.faults source.old) (S.faults source.new) result }
    {
        self.check_limits(size)?;
        if self.ended {
            return Ok(false);
        }
        self.fill(source, size)
    }

    /// Reads on until the next line is there, and answers its size without its line feed; `None` at the end.
    /// `Line` with `Long` and `Long` come as soon as the bytes that are there decide it; `ReadFault` only
    /// where they don't.
    pub fn find<S: Source>(&mut self, source: &mut S) -> Result<Option<usize>, RecFault>
        ensures stays { Stays self.old self.new (S.left source.old) (S.left source.new) }
        ensures line { IfOk result (λ o. IfSome o (IsLine self.new)) }
        ensures none { IfOk result (λ o. IfNone o ((self.new.bytes ≡ []) × IsTrue self.new.ended)) }
        ensures fault { IfErr result (FindsNone self.new) }
        ensures held { HoldsLines 1 self.old
            → (self.new ≡ self.old) × (source.new ≡ source.old) }
        ensures cause { HasReadCause (S.faults source.old) (S.faults source.new) result }
    {
        let mut searched = 0;
        'finding: loop {
            let held = self.window.bytes();
            let end = line_end(held, searched);
            if end < held.len() {
                let size = self.checked_size(end)?;
                return Ok(Some(size));
            }
            if !self.read_on(source, end)? {
                return Ok(if end == 0 { None } else { Some(end) });
            }
            searched = end;
        }
    }

    /// Whether the first line is this text, which has no line feed: it is there with its line feed, both may
    /// be passed, and it is no longer than a line. False leaves it open.
    pub fn begins_with(&self, text: &[u8]) -> bool
        requires { IsTrue (not (has_line_feed text.now)) }
        ensures line { OnTrue result (IsLine self.now (length text.now)) }
        ensures same { OnTrue result
            (without_return (take (length text.now) self.now.bytes) ≡ text.now) }
        ensures short { OnTrue result (length text.now ≤ LINE_LIMIT) }
    {
        let size = text.len();
        let held = self.window.bytes();
        if held.len() <= size || self.room() <= size || LINE_LIMIT < size {
            return false;
        }
        begins_line(held, text)
    }

    /// The first line, of this size.
    #[tactic(auto, using(crate::proofs::FeedLaws::feedless))]
    pub fn text(&self, size: usize) -> &[u8]
        requires { IsLine self.now size }
        ensures text { result.now ≡ without_return (take size self.now.bytes) }
        ensures one_line { IsTrue (not (has_line_feed result.now)) }
    {
        let (line, _) = self.window.bytes().split_at(size);
        without_return(line)
    }

    /// Passes the first line, of this size.
    pub fn advance(&mut self, size: usize)
        requires { IsLine self.old size }
        ensures { Passes self.old self.new size }
    {
        let count = size.saturating_add(1).min(self.window.bytes().len());
        self.window.skip(count);
        self.line += 1;
        self.passed += count as u64;
    }
}
