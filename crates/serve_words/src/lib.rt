//! The words behind `serve`, what they say, and how a service may end.
#![tactic(auto)]

mod fault;
mod lines;
mod options;

pub use fault::ServeFault;
pub use lines::is_serve_line;
pub use options::{ServeOptions, serve_options};
