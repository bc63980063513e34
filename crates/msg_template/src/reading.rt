//! Reading of templates.

ghost use Rattle.std.specs.Prelude.{◌≡◌, ◌≢◌, ◌≤◌, ◌++◌, true, false, length, IfErr, IfOk, OnOk};
ghost use Rattle.msg_template.specs.declared.fault.TemplateFault.TheVariants.{NoMemory as no_memory};
ghost use Rattle.msg_template.specs.declared.template.TheConstants.{TEMPLATE_LIMIT};
ghost use Rattle.msg_template.specs.Reading.{Reads, Refuses, words};

use crate::action::read_action;
use crate::cut::cut;
use crate::fault::TemplateFault;
use crate::template::{Part, TEMPLATE_LIMIT, Template};
use kap_base::Text;
use std::alloc::Global;

fn push_words(alloc: Global, parts: &mut Vec<Part>, text: &str) -> Result<(), TemplateFault>
    ensures ok { OnOk result (parts.new.items ≡ parts.old.items ++ words text.now) }
    ensures err { IfErr result (λ f. f ≡ no_memory) }
{
    if text.is_empty() {
        return Ok(());
    }
    parts.push(Part::Words(Text::from_str(alloc, text)?))?;
    Ok(())
}

fn read_parts(alloc: Global, of_id: bool, text: &str) -> Result<Vec<Part>, TemplateFault>
    requires { length text.now ≤ TEMPLATE_LIMIT }
    ensures ok { IfOk result (λ parts. Reads of_id text.now parts.items) }
    ensures err { IfErr result (λ f. f ≢ no_memory → Refuses of_id text.now 0 f) }
{
    let mut parts = Vec::new(alloc);
    let mut rest = text;
    let mut at = 0;
    'parts: while let Some((before, behind)) = cut(rest, "{{") {
        let place = (at + before.len()) as u32;
        let Some((body, others)) = cut(behind, "}}") else {
            return Err(TemplateFault::Action(place));
        };
        push_words(alloc, &mut parts, before)?;
        let action = read_action(alloc, of_id, place, body)?;
        parts.push(Part::Action(action))?;
        at += before.len() + body.len() + 4;
        rest = others;
    }
    push_words(alloc, &mut parts, rest)?;
    Ok(parts)
}

/// Reads the template of a message, of at most `TEMPLATE_LIMIT` bytes, as a text of a script always is. A
/// text is a template or has a first fault from the left: `Action` or `Field`, with its place, a byte counted
/// from 0.
pub fn read(alloc: Global, text: &Text) -> Result<Template, TemplateFault>
    requires { length text.now ≤ TEMPLATE_LIMIT }
    ensures ok { IfOk result (λ template. Reads false text.now template) }
    ensures err { IfErr result (λ f. f ≢ no_memory → Refuses false text.now 0 f) }
{
    let parts = read_parts(alloc, false, text.as_str())?;
    Ok(Template { parts })
}

/// Reads the template of an id, of at most `TEMPLATE_LIMIT` bytes, in which `.ID` and `.Level` are not
/// allowed.
pub fn read_id(alloc: Global, text: &Text) -> Result<Template, TemplateFault>
    requires { length text.now ≤ TEMPLATE_LIMIT }
    ensures ok { IfOk result (λ template. Reads true text.now template) }
    ensures err { IfErr result (λ f. f ≢ no_memory → Refuses true text.now 0 f) }
{
    let parts = read_parts(alloc, true, text.as_str())?;
    Ok(Template { parts })
}
