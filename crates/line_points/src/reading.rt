ghost use Rattle.std.specs.Prelude.{◌≡◌, ◌≤◌, [], Ok, Err, length, if◌then◌else◌};
ghost use Rattle.std.specs.FinMap as map;
ghost use Rattle.kap_base.specs.Words.{Answers};
ghost use Rattle.kap_base.specs.Maps.{with_entries};
ghost use Rattle.line_points.specs.Parts.{without_spaces};
ghost use Rattle.line_points.specs.Line.{differ, measurement_at, tag_at, tags_from, tags_at, quoted_at, word_at, value_at, field_at, fields_from, fields_at, time_of};
ghost use Rattle.line_points.specs.Reading.{Gives};

use crate::fault::LineFault;
use crate::mode::Mode;
use crate::part::Part;
use crate::room::Room;
use crate::scanner::Scanner;
use crate::time::time;
use crate::word::word_value;
use kap_base::{Fields, ItemList, Tags, Text, Value};
use std::alloc::Global;

#[tactic(auto, unfolding(crate::specs::Line::measurement_at))]
pub fn measurement(alloc: Global, scanner: &mut Scanner) -> Result<Text, LineFault>
    ensures { Gives result scanner.new.rest.now (measurement_at scanner.old.rest.now) }
{
    if scanner.begins_with(b'#') {
        return Err(LineFault::Measurement);
    }
    let name = scanner.text(alloc, Part::Measurement)?;
    if name.is_empty() {
        return Err(LineFault::Measurement);
    }
    Ok(name)
}

#[tactic(auto, unfolding(crate::specs::Line::tag_at))]
fn tag(alloc: Global, scanner: &mut Scanner) -> Result<(Text, Text), LineFault>
    ensures shorter { length scanner.new.rest.now ≤ length scanner.old.rest.now }
    ensures value { Gives result scanner.new.rest.now (tag_at scanner.old.rest.now) }
{
    let key = scanner.text(alloc, Part::Key)?;
    if key.is_empty() || !scanner.take(b'=') {
        return Err(LineFault::Tag);
    }
    let value = scanner.text(alloc, Part::Key)?;
    if value.is_empty() || scanner.begins_with(b'=') {
        return Err(LineFault::Tag);
    }
    Ok((key, value))
}

/// The tags, in this room.
fn all_tags(
    alloc: Global,
    scanner: &mut Scanner,
    room: Vec<(Text, Text)>,
) -> Result<ItemList<(Text, Text)>, LineFault>
    requires { room.items ≡ [] }
    ensures { Gives result scanner.new.rest.now
        (tags_from (length scanner.old.rest.now) scanner.old.rest.now) }
{
    let mut tags = ItemList::from_items(room);
    'tags: while scanner.take(b',') {
        let tag = tag(alloc, scanner)?;
        tags.push(tag)?;
    }
    Ok(tags)
}

/// The map of these tags, where no key stands twice.
fn tag_map(alloc: Global, tags: ItemList<(Text, Text)>) -> Result<Tags, LineFault>
    ensures { Answers LineFault.NoMemory result (
        if differ tags then Ok (with_entries map.empty tags) else Err LineFault.Tag) }
{
    let given = tags.len();
    let map = Tags::from_entries(alloc, tags.into_items())?;
    if map.len() != given {
        return Err(LineFault::Tag);
    }
    Ok(map)
}

#[tactic(auto, unfolding(crate::specs::Line::tags_at))]
pub fn tags(alloc: Global, scanner: &mut Scanner, room: &mut Room) -> Result<Tags, LineFault>
    ensures { Gives result scanner.new.rest.now (tags_at scanner.old.rest.now) }
{
    let room = room.take_tags(alloc, scanner.rest())?;
    let tags = all_tags(alloc, scanner, room)?;
    tag_map(alloc, tags)
}

#[tactic(auto, unfolding(crate::specs::Line::quoted_at))]
fn quoted_value(alloc: Global, scanner: &mut Scanner) -> Result<Value, LineFault>
    ensures shorter { length scanner.new.rest.now ≤ length scanner.old.rest.now }
    ensures value { Gives result scanner.new.rest.now (quoted_at scanner.old.rest.now) }
{
    let text = scanner.text(alloc, Part::Quoted)?;
    if !scanner.take(b'"') || !scanner.is_at_separator() {
        return Err(LineFault::Field);
    }
    Ok(Value::Str(text))
}

#[tactic(auto, unfolding(crate::specs::Line::word_at))]
fn word(scanner: &mut Scanner) -> Result<Value, LineFault>
    ensures shorter { length scanner.new.rest.now ≤ length scanner.old.rest.now }
    ensures value { Gives result scanner.new.rest.now (word_at scanner.old.rest.now) }
{
    word_value(scanner.word())
}

fn value(alloc: Global, scanner: &mut Scanner) -> Result<Value, LineFault>
    ensures shorter { length scanner.new.rest.now ≤ length scanner.old.rest.now }
    ensures value { Gives result scanner.new.rest.now (value_at scanner.old.rest.now) }
{
    if scanner.take(b'"') {
        quoted_value(alloc, scanner)
    } else {
        word(scanner)
    }
}

#[tactic(auto, unfolding(crate::specs::Line::field_at))]
fn field(alloc: Global, scanner: &mut Scanner) -> Result<(Text, Value), LineFault>
    ensures shorter { length scanner.new.rest.now ≤ length scanner.old.rest.now }
    ensures value { Gives result scanner.new.rest.now (field_at scanner.old.rest.now) }
{
    let key = scanner.text(alloc, Part::Key)?;
    if key.is_empty() || !scanner.take(b'=') {
        return Err(LineFault::Field);
    }
    let value = value(alloc, scanner)?;
    Ok((key, value))
}

/// The fields, in this room.
fn all_fields(
    alloc: Global,
    scanner: &mut Scanner,
    room: Vec<(Text, Value)>,
) -> Result<ItemList<(Text, Value)>, LineFault>
    requires { room.items ≡ [] }
    ensures { Gives result scanner.new.rest.now
        (fields_from (length scanner.old.rest.now) scanner.old.rest.now) }
{
    let mut fields = ItemList::from_items(room);
    'fields: loop {
        let field = field(alloc, scanner)?;
        fields.push(field)?;
        if !scanner.take(b',') {
            return Ok(fields);
        }
    }
}

/// The fields behind the spaces that come next.
#[tactic(auto, unfolding(crate::specs::Line::fields_at))]
pub fn fields(alloc: Global, scanner: &mut Scanner, room: &mut Room) -> Result<Fields, LineFault>
    ensures { Gives result scanner.new.rest.now (fields_at scanner.old.rest.now) }
{
    scanner.skip_spaces();
    if scanner.is_empty() {
        return Err(LineFault::NoField);
    }
    let room = room.take_fields(alloc, scanner.rest())?;
    let fields = all_fields(alloc, scanner, room)?;
    let map = Fields::from_entries(alloc, fields.into_items())?;
    Ok(map)
}

pub fn last_time(mode: &Mode, scanner: &mut Scanner) -> Result<i64, LineFault>
    ensures { result ≡ time_of mode.now (without_spaces scanner.old.rest.now) }
{
    scanner.skip_spaces();
    time(mode, scanner.rest())
}
