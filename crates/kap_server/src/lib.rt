//! The commands of `kapd`: what they answer, what they write and when.
#![tactic(auto)]

mod changing;
mod checking;
mod commands;
mod compacting;
mod generating;
mod inputs;
mod laws;
mod listing;
mod making;
mod options;
mod parts;
mod reading;
mod readying;
mod replaying;
mod status;
mod telling;
mod texts;
mod ways;
mod words;
mod writing;

pub use commands::command;
pub use laws::{
    alerts_are_those_of_a_replay, limits_of_commands, nodes_say_the_same, pairs_have_one_meaning,
    texts_check_in_one_way,
};
pub use status::Status;
pub use texts::status_text;
