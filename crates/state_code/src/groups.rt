//! Groups: by what points are grouped.

ghost use Rattle.std.specs.Prelude.{◌≡◌, true};
ghost use Rattle.std.specs.Option.{option_map_or};
ghost use Rattle.kap_base.specs.Groups.{are_tag_values, is_tag_value};
ghost use Rattle.kap_base.specs.Texts.{is_measurement};
ghost use Rattle.state_code.specs.Groups.{are_group, FitsGroup, spell_group, read_group, group_spelled};

use crate::cursor::Cursor;
use crate::fault::CodeFault;
use crate::spelled::Spelled;
use kap_base::{Bytes, Group, Names, NoMemory, Text, are_dimensions};
use std::alloc::Global;

fn is_measurement_or_none(name: &Option<Text>) -> bool
    ensures { result ≡ option_map_or is_measurement name.now true }
{
    match name {
        Some(name) => name.is_measurement(),
        None => true,
    }
}

/// Whether the text can be the value of the dimension.
fn is_tag_value(dim: &Text, value: &Text) -> bool
    ensures { result ≡ is_tag_value dim.now value.now }
{
    if value.is_empty() {
        return true;
    }
    if !dim.is_name() {
        return false;
    }
    value.is_name()
}

/// Whether there is one value for each dimension.
fn are_tag_values(dims: &[Text], values: &[Text]) -> bool
    ensures { result ≡ are_tag_values dims.now values.now }
{
    let mut dims_left = dims;
    let mut values_left = values;
    'passing: while let Some((dim, other_dims)) = dims_left.split_first() {
        let Some((value, other_values)) = values_left.split_first() else {
            return false;
        };
        if !is_tag_value(dim, value) {
            return false;
        }
        dims_left = other_dims;
        values_left = other_values;
    }
    values_left.is_empty()
}

/// Whether these make a group.
fn are_group(name: &Option<Text>, dims: &Names, values: &Names) -> bool
    ensures { result ≡ are_group name.now dims.now values.now }
{
    if !is_measurement_or_none(name) {
        return false;
    }
    if !are_dimensions(dims) {
        return false;
    }
    are_tag_values(dims.as_slice(), values.as_slice())
}

/// Its measurement as an option, its dimensions, and their values.
impl Spelled for Group {
    ghost fits = { FitsGroup };

    ghost spell = { spell_group };

    ghost read = { read_group };

    ghost spelled = { group_spelled };

    fn append_spelling(&self, to: &mut Bytes) -> Result<(), NoMemory> {
        self.name.append_spelling(to)?;
        self.dims.append_spelling(to)?;
        self.values.append_spelling(to)
    }

    fn read_spelling(alloc: Global, from: &mut Cursor) -> Result<Group, CodeFault> {
        let name = <Option<Text> as Spelled>::read_spelling(alloc, from)?;
        let dims = <Names as Spelled>::read_spelling(alloc, from)?;
        let values = <Names as Spelled>::read_spelling(alloc, from)?;
        if !are_group(&name, &dims, &values) {
            return Err(CodeFault::At(from.offset()));
        }
        Ok(Group { name, dims, values })
    }
}
