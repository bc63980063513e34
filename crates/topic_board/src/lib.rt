//! A board of topics: one posts transitions to it, and many read the topics without waiting for anybody.
#![tactic(auto)]

mod history;
mod look;
mod poster;
mod sends;
mod shown;
mod start;

pub use history::{Front, Naming, Opened};
pub use look::{Away, Look, LookFault};
pub use poster::{POST_LIMIT, Poster};
pub use sends::{send_front, send_look, send_poster};
pub use shown::{Posted, Published, Shown};
pub use start::{Board, board};
