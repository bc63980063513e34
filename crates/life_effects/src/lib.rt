//! What the lives of a store have done: definitions and laws, and no code.
#![tactic(auto)]

mod laws;

pub use laws::{
    lives_tell_alike, open_lives_are_all, open_lives_come_and_go, stores_go_on, transitions_go_on,
};
