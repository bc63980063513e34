//! What the batch programs are made of: the loop over their lines; what stands in a line, as bytes that are
//! written with escapes, numbers, names and points; and a gate that counts the turns of workers.
#![tactic(auto)]

mod escapes;
mod fault;
mod lines;
mod names;
mod points;
mod turns;
mod words;

pub use escapes::{put_shown, unescape};
pub use fault::LineFault;
pub use lines::{Asked, answer_lines};
pub use names::{name_of, numbers_in, part_of};
pub use points::point_of;
pub use turns::Holding;
pub use words::{bytes, calls, first_of, level, number, numbers, part, signed, string, text};
