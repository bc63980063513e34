//! The actions of a template.

ghost use Rattle.std.specs.Prelude.{◌≡◌, ◌≤◌, length, position};
ghost use Rattle.std.specs.List.{position_or_len};
ghost use Rattle.std.specs.Option.{option_map};
ghost use Rattle.kap_base.specs.Words.{Answers};
ghost use Rattle.msg_template.specs.declared.fault.TemplateFault.TheVariants.{NoMemory as no_memory};
ghost use Rattle.msg_template.specs.Actions.{action_at, are_spaces, cut_at_quote, dotted, ends_name, indexed, is_allowed, is_identifier, is_name_byte, listed, named, without_spaces};

use crate::fault::TemplateFault;
use kap_base::Text;
use std::alloc::Global;

/// What stands in place of an action.
#[derive(Debug, PartialEq, Eq, Drop)]
pub enum Action {
    /// `.ID`: the id of the alert.
    Id,
    /// `.Name`: the measurement.
    Name,
    /// `.TaskName`: the id of the task.
    TaskName,
    /// `.Group`: the group.
    Group,
    /// `.Level`: the level.
    Level,
    /// `.Time`: the time in nanoseconds, in decimal digits.
    Time,
    /// `index .Tags "k"`: the tag of this key.
    Tag(Text),
    /// `index .Fields "k"`: the field of this key.
    Field(Text),
}

fn is_name_byte(byte: u8) -> bool
    ensures { result ≡ is_name_byte byte }
{
    byte == b'_' || byte.is_ascii_alphanumeric()
}

fn is_identifier(name: &[u8]) -> bool
    ensures { result ≡ is_identifier name.now }
{
    match name.first() {
        Some(first) => !first.is_ascii_digit(),
        None => false,
    }
}

/// Where a name at the front ends, if other bytes follow it.
fn name_end(bytes: &[u8]) -> Option<usize>
    ensures { result ≡ position ends_name bytes.now }
{
    bytes.iter().position(|byte| !is_name_byte(*byte))
}

/// How many bytes of a name stand at the front.
fn name_len(bytes: &[u8]) -> usize
    ensures len { result ≡ position_or_len ends_name bytes.now }
    ensures within { result ≤ length bytes.now }
{
    match name_end(bytes) {
        Some(at) => at,
        None => bytes.len(),
    }
}

fn are_spaces(bytes: &[u8]) -> bool
    ensures { result ≡ are_spaces bytes.now }
{
    bytes.iter().all(|byte| *byte == b' ')
}

fn without_spaces(bytes: &[u8]) -> &[u8]
    ensures { result.now ≡ without_spaces bytes.now }
{
    let mut rest = bytes;
    'spaces: while let Some((b' ', behind)) = rest.split_first() {
        rest = behind;
    }
    rest
}

fn named(name: &[u8]) -> Option<Action>
    ensures { result ≡ named name.now }
{
    if name == b"ID".as_slice() {
        Some(Action::Id)
    } else if name == b"Name".as_slice() {
        Some(Action::Name)
    } else if name == b"TaskName".as_slice() {
        Some(Action::TaskName)
    } else if name == b"Group".as_slice() {
        Some(Action::Group)
    } else if name == b"Level".as_slice() {
        Some(Action::Level)
    } else if name == b"Time".as_slice() {
        Some(Action::Time)
    } else {
        None
    }
}

fn is_allowed(of_id: bool, action: &Action) -> bool
    ensures { result ≡ is_allowed of_id action.now }
{
    match action {
        Action::Id | Action::Level => !of_id,
        _ => true,
    }
}

fn listed(of_id: bool, at: u32, name: &[u8]) -> Result<Action, TemplateFault>
    ensures { result ≡ listed of_id at name.now }
{
    match named(name) {
        Some(action) => {
            if is_allowed(of_id, &action) {
                Ok(action)
            } else {
                Err(TemplateFault::Field(at))
            }
        }
        None => Err(TemplateFault::Field(at)),
    }
}

/// The action of a dot and these bytes.
fn dotted(of_id: bool, at: u32, bytes: &[u8]) -> Result<Action, TemplateFault>
    ensures { result ≡ dotted of_id at bytes.now }
{
    let (name, behind) = bytes.split_at(name_len(bytes));
    if is_identifier(name) && are_spaces(behind) {
        listed(of_id, at, name)
    } else {
        Err(TemplateFault::Action(at))
    }
}

/// The text before the first quote, and the text behind it.
fn cut_at_quote(text: &str) -> Option<(&str, &str)>
    ensures { option_map (λ p. (p.0.now, p.1.now)) result ≡ cut_at_quote text.now }
{
    text.split_once('"')
}

/// The action that takes the tag or the field of a key.
fn indexed(alloc: Global, at: u32, body: &str) -> Result<Action, TemplateFault>
    ensures { Answers no_memory result (indexed at body.now) }
{
    let Some((front, quoted)) = cut_at_quote(body) else {
        return Err(TemplateFault::Action(at));
    };
    let Some((key, behind)) = cut_at_quote(quoted) else {
        return Err(TemplateFault::Action(at));
    };
    if !are_spaces(behind.as_bytes()) {
        return Err(TemplateFault::Action(at));
    }
    let front = without_spaces(front.as_bytes());
    if front == b"index .Tags ".as_slice() {
        Ok(Action::Tag(Text::from_str(alloc, key)?))
    } else if front == b"index .Fields ".as_slice() {
        Ok(Action::Field(Text::from_str(alloc, key)?))
    } else {
        Err(TemplateFault::Action(at))
    }
}

/// The action between braces, which begin at the place `at`.
pub(crate) fn read_action(
    alloc: Global,
    of_id: bool,
    at: u32,
    body: &str,
) -> Result<Action, TemplateFault>
    ensures { Answers no_memory result (action_at of_id at body.now) }
{
    let words = without_spaces(body.as_bytes());
    match words.split_first() {
        Some((b'.', name)) => dotted(of_id, at, name),
        _ => indexed(alloc, at, body),
    }
}
