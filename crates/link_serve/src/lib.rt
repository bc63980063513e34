//! A connection over a link that waits.
#![tactic(auto)]

mod fill_fault;
mod link_io;
mod serving;

pub use serving::serve_link;
