//! Templates of the ids and messages of alerts (Kapacitor 1.6: alert node, message): text with actions, which
//! are filled with the facts of an alert.
#![tactic(auto)]

mod action;
mod cut;
mod facts;
mod fault;
mod fill;
mod law;
mod reading;
mod template;

pub use action::Action;
pub use facts::Facts;
pub use fault::TemplateFault;
pub use law::{
    actions_are_read_by_form, examples_of_templates, limit_is_a_number, one_meaning,
    parts_are_spelled,
};
pub use reading::{read, read_id};
pub use template::{Part, TEMPLATE_LIMIT, Template};
