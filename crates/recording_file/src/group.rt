ghost use Rattle.std.specs.Prelude.{◌≡◌, ◌≢◌, ◌+◌, ℕ, Ok, Err, Some, not, IsTrue, IfOk, IfErr, IfSome, IfNone, IsUtf8, OnOk, OnSome};
ghost use Rattle.std.specs.Bool.{OnTrue, OnFalse};
ghost use Rattle.kap_base.specs.Texts.{has_line_feed};
ghost use Rattle.recording_file.specs.Causes.{HasReadCause};
ghost use Rattle.recording_file.specs.Recording.{name_of_line, read};
ghost use Rattle.recording_file.specs.Finding.{Reads, CountRises, FindsEnd, HoldsLines};
ghost use Rattle.recording_file.specs.Steps.{read_policy, read_database, GivesPoint, FailsBy, FaultAt, PassesName, RefusesName};

use crate::fault::RecFault;
use crate::lines::Lines;
use kap_base::{Point, Shared, Text, TextFault, are_same};
use kap_io::Source;
use line_points::{LINE_LIMIT, LineFault, Pool, read_recorded};
use std::alloc::Global;

/// Whether the text has these bytes.
fn is_text(text: &Text, bytes: &[u8]) -> bool
    ensures same { OnTrue result (text.now ≡ bytes.now) }
    ensures utf8 { IsUtf8 text.now }
{
    are_same(text.bytes(), bytes)
}

/// Sets the database or the policy to the one that a line gives, where it isn't that already.
fn set_name(alloc: Global, line: &[u8], name: &mut Text) -> Result<(), LineFault>
    requires line { IsTrue (not (has_line_feed line.now)) }
    requires name { IsTrue (not (has_line_feed name.old)) }
    ensures set { OnOk result ((name_of_line line.now ≡ Ok name.new) × (name.new ≡ line.now)) }
    ensures one_line { IsTrue (not (has_line_feed name.new)) }
    ensures fault { IfErr result (λ f. f ≢ LineFault.NoMemory → name_of_line line.now ≡ Err f) }
{
    if line.len() > LINE_LIMIT {
        return Err(LineFault::Long);
    }
    if is_text(name, line) {
        return Ok(());
    }
    match Text::from_bytes(alloc, line) {
        Ok(text) => {
            *name = text;
            Ok(())
        }
        Err(TextFault::NotUtf8) => Err(LineFault::NotUtf8),
        Err(TextFault::NoMemory) => Err(LineFault::NoMemory),
    }
}

/// What a line gives, its fault with its number.
fn at_line<T: Drop>(line: u64, read: Result<T, LineFault>) -> Result<T, RecFault>
    ensures ok { IfOk result (λ x. read ≡ Ok x) }
    ensures fault { IfErr result (FaultAt line read) }
{
    match read {
        Ok(value) => Ok(value),
        Err(LineFault::NoMemory) => Err(RecFault::NoMemory),
        Err(fault) => Err(RecFault::Line { line, fault }),
    }
}

/// The point of a group whose database and policy were given.
pub fn point_behind_policy<S: Source>(
    alloc: Global,
    lines: &mut Lines,
    source: &mut S,
    db: &Text,
    rp: &Text,
    pool: &mut Pool,
) -> Result<Shared<Point>, RecFault>
    requires db { IsTrue (not (has_line_feed db.now)) }
    requires rp { IsTrue (not (has_line_feed rp.now)) }
    ensures reads { Reads lines.old lines.new (S.left source.old) (S.left source.new) }
    ensures point { IfOk result (GivesPoint (read_policy db.now rp.now) lines.old lines.new) }
    ensures count_rises { OnOk result (CountRises lines.old lines.new) }
    ensures line { OnOk result (lines.new.line ≡ lines.old.line + 1) }
    ensures held { HoldsLines 1 lines.old → source.new ≡ source.old }
    ensures fault { IfErr result (FailsBy (read_policy db.now rp.now) lines.old lines.new) }
    ensures cause { HasReadCause (S.faults source.old) (S.faults source.new) result }
{
    let Some(size) = lines.find(source)? else {
        return Err(RecFault::Truncated { line: lines.line() });
    };
    let point = at_line(
        lines.line(),
        read_recorded(alloc, lines.text(size), db, rp, pool),
    )?;
    lines.advance(size);
    Ok(point)
}

/// Passes a line that is a database or a policy, which is set; false at the end.
#[inline(always)]
fn pass_name<S: Source>(
    alloc: Global,
    lines: &mut Lines,
    source: &mut S,
    name: &mut Text,
) -> Result<bool, RecFault>
    requires { IsTrue (not (has_line_feed name.old)) }
    ensures reads { Reads lines.old lines.new (S.left source.old) (S.left source.new) }
    ensures name { IfOk result (λ more. OnTrue more (PassesName name.new lines.old lines.new)) }
    ensures one_line { IsTrue (not (has_line_feed name.new)) }
    ensures count_rises { IfOk result (λ more. OnTrue more (CountRises lines.old lines.new)) }
    ensures line { IfOk result (λ more. OnTrue more (lines.new.line ≡ lines.old.line + 1)) }
    ensures held { (n : ℕ) → HoldsLines (1 + n) lines.old → source.new ≡ source.old }
    ensures others { (n : ℕ) → HoldsLines (1 + n) lines.old
        → IfOk result (λ more. OnTrue more (HoldsLines n lines.new)) }
    ensures end { IfOk result (λ more. OnFalse more
        (FindsEnd lines.old lines.new (S.left source.old) (S.left source.new))) }
    ensures fault { IfErr result (RefusesName lines.old lines.new) }
    ensures cause { HasReadCause (S.faults source.old) (S.faults source.new) result }
{
    let known = name.bytes();
    if lines.begins_with(known) {
        lines.advance(known.len());
        return Ok(true);
    }
    let Some(size) = lines.find(source)? else {
        return Ok(false);
    };
    at_line(lines.line(), set_name(alloc, lines.text(size), name))?;
    lines.advance(size);
    Ok(true)
}

/// The point of a group whose database was given. The policy is kept.
fn point_behind_database<S: Source>(
    alloc: Global,
    lines: &mut Lines,
    source: &mut S,
    db: &Text,
    rp: &mut Text,
    pool: &mut Pool,
) -> Result<Shared<Point>, RecFault>
    requires db { IsTrue (not (has_line_feed db.now)) }
    requires rp { IsTrue (not (has_line_feed rp.old)) }
    ensures rp { IsTrue (not (has_line_feed rp.new)) }
    ensures reads { Reads lines.old lines.new (S.left source.old) (S.left source.new) }
    ensures point { IfOk result (GivesPoint (read_database db.now) lines.old lines.new) }
    ensures count_rises { OnOk result (CountRises lines.old lines.new) }
    ensures line { OnOk result (lines.new.line ≡ lines.old.line + 2) }
    ensures held { HoldsLines 2 lines.old → source.new ≡ source.old }
    ensures fault { IfErr result (FailsBy (read_database db.now) lines.old lines.new) }
    ensures cause { HasReadCause (S.faults source.old) (S.faults source.new) result }
{
    if !pass_name(alloc, lines, source, rp)? {
        return Err(RecFault::Truncated { line: lines.line() });
    }
    point_behind_policy(alloc, lines, source, db, rp, pool)
}

/// The point of the next group, or `None` at the end. The database and the policy are kept.
pub fn next_point<S: Source>(
    alloc: Global,
    lines: &mut Lines,
    source: &mut S,
    db: &mut Text,
    rp: &mut Text,
    pool: &mut Pool,
) -> Result<Option<Shared<Point>>, RecFault>
    requires db { IsTrue (not (has_line_feed db.old)) }
    requires rp { IsTrue (not (has_line_feed rp.old)) }
    ensures db { IsTrue (not (has_line_feed db.new)) }
    ensures rp { IsTrue (not (has_line_feed rp.new)) }
    ensures reads { Reads lines.old lines.new (S.left source.old) (S.left source.new) }
    ensures point { IfOk result (λ o. IfSome o (GivesPoint read lines.old lines.new)) }
    ensures count_rises { IfOk result (λ o. OnSome o (CountRises lines.old lines.new)) }
    ensures line { IfOk result (λ o. OnSome o (lines.new.line ≡ lines.old.line + 3)) }
    ensures held { HoldsLines 3 lines.old → source.new ≡ source.old }
    ensures end { IfOk result (λ o. IfNone o
        (FindsEnd lines.old lines.new (S.left source.old) (S.left source.new))) }
    ensures fault { IfErr result (FailsBy read lines.old lines.new) }
    ensures cause { HasReadCause (S.faults source.old) (S.faults source.new) result }
{
    if !pass_name(alloc, lines, source, db)? {
        return Ok(None);
    }
    let point = point_behind_database(alloc, lines, source, db, rp, pool)?;
    Ok(Some(point))
}
