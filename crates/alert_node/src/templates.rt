//! Templates and topics where a script gives none.

ghost use Rattle.std.specs.Prelude.{◌≡◌, IfOk, unwrap_or};
ghost use Rattle.alert_node.specs.Events.{default_id, default_message, default_topic};

use kap_base::{NoMemory, Text};
use msg_template::{Template, TemplateFault, one_meaning, read, read_id};
use std::alloc::Global;

/// The template `{{ .Name }}:{{ .Group }}`.
fn default_id(alloc: Global) -> Result<Template, NoMemory>
    ensures { IfOk result (λ template. template ≡ default_id) }
{
    let text = Text::from_str(alloc, "{{ .Name }}:{{ .Group }}")?;
    one_meaning();
    match read_id(alloc, &text) {
        Ok(template) => Ok(template),
        Err(TemplateFault::NoMemory) => Err(NoMemory),
        Err(TemplateFault::Action(_)) => unreachable!(),
        Err(TemplateFault::Field(_)) => unreachable!(),
    }
}

/// The template `{{ .ID }} is {{ .Level }}`.
fn default_message(alloc: Global) -> Result<Template, NoMemory>
    ensures { IfOk result (λ template. template ≡ default_message) }
{
    let text = Text::from_str(alloc, "{{ .ID }} is {{ .Level }}")?;
    one_meaning();
    match read(alloc, &text) {
        Ok(template) => Ok(template),
        Err(TemplateFault::NoMemory) => Err(NoMemory),
        Err(TemplateFault::Action(_)) => unreachable!(),
        Err(TemplateFault::Field(_)) => unreachable!(),
    }
}

/// The topic of a node of a task, by the task's id and the node's name.
fn default_topic(alloc: Global, task: &Text, name: &Text) -> Result<Text, NoMemory>
    ensures { IfOk result (λ topic. topic ≡ default_topic task.now name.now) }
{
    let mut topic = String::new(alloc);
    topic.push_str("main:")?;
    topic.push_str(task.as_str())?;
    topic.push_str(":")?;
    topic.push_str(name.as_str())?;
    Ok(Text::from_string(topic))
}

/// The template of the id.
pub(crate) fn id_or_default(alloc: Global, given: Option<Template>) -> Result<Template, NoMemory>
    ensures { IfOk result (λ template. template ≡ unwrap_or given default_id) }
{
    match given {
        Some(template) => Ok(template),
        None => default_id(alloc),
    }
}

/// The template of the message.
pub(crate) fn message_or_default(
    alloc: Global,
    given: Option<Template>,
) -> Result<Template, NoMemory>
    ensures { IfOk result (λ template. template ≡ unwrap_or given default_message) }
{
    match given {
        Some(template) => Ok(template),
        None => default_message(alloc),
    }
}

/// The topic.
pub(crate) fn topic_or_default(
    alloc: Global,
    given: Option<Text>,
    task: &Text,
    name: &Text,
) -> Result<Text, NoMemory>
    ensures { IfOk result
        (λ topic. topic ≡ unwrap_or given (default_topic task.now name.now)) }
{
    match given {
        Some(topic) => Ok(topic),
        None => default_topic(alloc, task, name),
    }
}
