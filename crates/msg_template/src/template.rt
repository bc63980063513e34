use crate::action::Action;
use kap_base::Text;
use std::marker::Model;

/// The most bytes of a template, and of the text that it is filled to.
pub const TEMPLATE_LIMIT: usize = 65_536;

/// A part of a template.
#[derive(Debug, PartialEq, Eq, Drop)]
pub enum Part {
    /// Words that stand for themselves.
    Words(Text),
    /// An action.
    Action(Action),
}

/// A template, which contracts see as its parts.
#[derive(Debug, Drop)]
pub struct Template {
    pub(crate) parts: Vec<Part>,
}

impl Model for Template {
    ghost use Rattle.std.specs.Prelude.{List};
    ghost use Rattle.msg_template.specs.declared.template.Part.{Part};

    ghost Value = { List Part };

    ghost view = { λ t. t.parts.items };
}
