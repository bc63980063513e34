//! Texts that are templates.

ghost use Rattle.std.specs.Prelude.{◌≡◌, ◌≤◌, ℕ, Bool, true, false, List, length, Ok, Err};
ghost use Rattle.kap_base.specs.Words.{Answers};
ghost use Rattle.msg_template.specs.Reading.{Reads, Refuses};
ghost use Rattle.msg_template.specs.declared.fault.TemplateFault.{TemplateFault};
ghost use Rattle.msg_template.specs.declared.template.Part.{Part};
ghost use Rattle.msg_template.specs.declared.template.TheConstants.{TEMPLATE_LIMIT};
ghost use Rattle.tick_compile.specs.Templates.{template_given, template_of};

use crate::given::Args;
use crate::node_fault::NodeFault;
use crate::readers::one;
use kap_base::Text;
use msg_template::{TEMPLATE_LIMIT, Template, TemplateFault, one_meaning, read, read_id};
use std::alloc::Global;

/// The law of templates: the template that an alert is given has the parts that are read in its text, or the
/// fault of the text.
pub fn templates_are_read()
    ensures parts { (of_id : Bool) (text : List ℕ) (ps : List Part) →
        template_of of_id text ≡ Ok ps → Reads of_id text ps }
    ensures fault { (of_id : Bool) (text : List ℕ) (f : TemplateFault) →
        template_of of_id text ≡ Err f → Refuses of_id text 0 f }
{}

/// The template of an id.
fn id_template(alloc: Global, text: &Text) -> Result<Template, TemplateFault>
    requires { length text.now ≤ TEMPLATE_LIMIT }
    ensures { Answers TemplateFault.NoMemory result (template_of true text.now) }
{
    one_meaning();
    read_id(alloc, text)
}

/// The template of a message.
fn message_template(alloc: Global, text: &Text) -> Result<Template, TemplateFault>
    requires { length text.now ≤ TEMPLATE_LIMIT }
    ensures { Answers TemplateFault.NoMemory result (template_of false text.now) }
{
    one_meaning();
    read(alloc, text)
}

/// The template of a text, `of_id` where it is that of an id.
fn template_of(alloc: Global, of_id: bool, text: &Text) -> Result<Template, TemplateFault>
    requires { length text.now ≤ TEMPLATE_LIMIT }
    ensures { Answers TemplateFault.NoMemory result (template_of of_id text.now) }
{
    if of_id {
        id_template(alloc, text)
    } else {
        message_template(alloc, text)
    }
}

/// A text that is a template, `of_id` where it is that of an id.
pub(crate) fn template<L: Drop>(
    alloc: Global,
    of_id: bool,
    args: Args<L>,
    at: u32,
) -> Result<Template, NodeFault>
    ensures { Answers NodeFault.NoMemory result (template_given of_id at args) }
{
    let text: Text = one(alloc, args, at)?;
    if text.bytes().len() > TEMPLATE_LIMIT {
        return Err(NodeFault::Argument(at));
    }
    match template_of(alloc, of_id, &text) {
        Ok(template) => Ok(template),
        Err(TemplateFault::NoMemory) => Err(NodeFault::NoMemory),
        Err(fault) => Err(NodeFault::Template(at, fault)),
    }
}
