//! Filling of templates.

ghost use Rattle.std.specs.Prelude.{◌≡◌, ◌++◌, IfOk, OnOk, string_bytes, zip};
ghost use Rattle.kap_base.specs.Groups.{tag_value};
ghost use Rattle.std.specs.Fmt.{signed_decimal};
ghost use Rattle.std.specs.List.{flat_map};
ghost use Rattle.msg_template.specs.declared.template.TheConstants.{TEMPLATE_LIMIT};
ghost use Rattle.msg_template.specs.Filling.{IsCutTo, IsMade, action_text, comma_dimension, dimension_text, field_text, group_text, part_text, value_text, whole_text};

use crate::action::Action;
use crate::facts::Facts;
use crate::template::{Part, TEMPLATE_LIMIT, Template};
use itoa::Buffer;
use kap_base::{Fields, Group, NoMemory, Tags, Text, Value};
use std::alloc::Global;

fn put_text(text: &Text, out: &mut String) -> Result<(), NoMemory>
    ensures { OnOk result (string_bytes out.new ≡ string_bytes out.old ++ text.now) }
{
    out.push_str(text.as_str())?;
    Ok(())
}

fn put_number(number: i64, out: &mut String) -> Result<(), NoMemory>
    ensures { OnOk result (string_bytes out.new ≡ string_bytes out.old ++ signed_decimal number) }
{
    let mut buffer = Buffer::new();
    out.push_str(buffer.format(number))?;
    Ok(())
}

fn put_value(value: &Value, out: &mut String) -> Result<(), NoMemory>
    ensures { OnOk result (string_bytes out.new ≡ string_bytes out.old ++ value_text value.now) }
{
    match value {
        Value::Int(number) => put_number(*number, out)?,
        Value::Bool(true) => out.push_str("true")?,
        Value::Bool(false) => out.push_str("false")?,
        Value::Str(text) => put_text(text, out)?,
    }
    Ok(())
}

fn put_dimension(dim: &Text, value: &Text, out: &mut String) -> Result<(), NoMemory>
    ensures { OnOk result (string_bytes out.new
        ≡ string_bytes out.old ++ dimension_text (dim.now, value.now)) }
{
    put_text(dim, out)?;
    out.push_str("=")?;
    put_text(value, out)
}

/// The dimensions and their values, a comma before each.
fn put_more_dimensions(dims: &[Text], values: &[Text], out: &mut String) -> Result<(), NoMemory>
    ensures { OnOk result (string_bytes out.new
        ≡ string_bytes out.old ++ flat_map comma_dimension (zip dims.now values.now)) }
{
    let mut dims = dims;
    let mut values = values;
    'dimensions: while let (Some((dim, more)), Some((value, others))) = (
        dims.split_first(),
        values.split_first(),
    ) {
        out.push_str(",")?;
        put_dimension(dim, value, out)?;
        dims = more;
        values = others;
    }
    Ok(())
}

fn put_group(group: &Group, out: &mut String) -> Result<(), NoMemory>
    ensures { OnOk result (string_bytes out.new ≡ string_bytes out.old ++ group_text group.now) }
{
    match (
        group.dims.as_slice().split_first(),
        group.values.as_slice().split_first(),
    ) {
        (Some((dim, dims)), Some((value, values))) => {
            put_dimension(dim, value, out)?;
            put_more_dimensions(dims, values, out)
        }
        _ => {
            out.push_str("nil")?;
            Ok(())
        }
    }
}

fn put_tag(tags: &Tags, key: &Text, out: &mut String) -> Result<(), NoMemory>
    ensures { OnOk result
        (string_bytes out.new ≡ string_bytes out.old ++ tag_value tags.now key.now) }
{
    match tags.get(key) {
        Some(value) => put_text(value, out),
        None => Ok(()),
    }
}

fn put_field(fields: &Fields, key: &Text, out: &mut String) -> Result<(), NoMemory>
    ensures { OnOk result
        (string_bytes out.new ≡ string_bytes out.old ++ field_text fields.now key.now) }
{
    match fields.get(key) {
        Some(value) => put_value(value, out),
        None => Ok(()),
    }
}

fn put_action(action: &Action, facts: &Facts, out: &mut String) -> Result<(), NoMemory>
    ensures { OnOk result (string_bytes out.new
        ≡ string_bytes out.old ++ action_text facts.now action.now) }
{
    match action {
        Action::Id => put_text(&facts.id, out),
        Action::Name => put_text(&facts.name, out),
        Action::TaskName => put_text(&facts.task, out),
        Action::Group => put_group(&facts.group, out),
        Action::Level => {
            out.push_str(facts.level.name())?;
            Ok(())
        }
        Action::Time => put_number(facts.time, out),
        Action::Tag(key) => put_tag(&facts.tags, key, out),
        Action::Field(key) => put_field(&facts.fields, key, out),
    }
}

fn put_part(part: &Part, facts: &Facts, out: &mut String) -> Result<(), NoMemory>
    ensures { OnOk result (string_bytes out.new
        ≡ string_bytes out.old ++ part_text facts.now part.now) }
{
    match part {
        Part::Words(text) => put_text(text, out),
        Part::Action(action) => put_action(action, facts, out),
    }
}

/// The text of the parts, or a front of it that is longer than the limit.
fn filled(alloc: Global, parts: &[Part], facts: &Facts) -> Result<String, NoMemory>
    ensures { IfOk result (λ text. IsMade TEMPLATE_LIMIT (whole_text facts.now parts.now)
        (string_bytes text)) }
{
    let mut out = String::new(alloc);
    'parts: for part in parts {
        put_part(part, facts, &mut out)?;
        if out.len() > TEMPLATE_LIMIT {
            return Ok(out);
        }
    }
    Ok(out)
}

/// The longest front of whole characters within the limit.
fn cut_to_limit(alloc: Global, text: String) -> Result<Text, NoMemory>
    ensures { IfOk result (λ cut. IsCutTo TEMPLATE_LIMIT (string_bytes text) cut) }
{
    if text.len() <= TEMPLATE_LIMIT {
        return Ok(Text::from_string(text));
    }
    let text = text.as_str();
    let (front, _) = text.split_at(text.floor_char_boundary(TEMPLATE_LIMIT));
    Text::from_str(alloc, front)
}

impl Template {
    /// The text of the template with these facts, cut to the longest front of whole characters within
    /// `TEMPLATE_LIMIT` bytes. A tag or a field that is missing gives nothing.
    pub fn fill(&self, alloc: Global, facts: &Facts) -> Result<Text, NoMemory>
        ensures { IfOk result (λ text.
            IsCutTo TEMPLATE_LIMIT (whole_text facts.now self.now) text) }
    {
        cut_to_limit(alloc, filled(alloc, &self.parts, facts)?)
    }
}
