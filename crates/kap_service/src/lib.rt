//! The service: one engine and a board of topics under a lock that many threads share, two ledgers of what was
//! answered, and the serving of links at doors.
#![tactic(auto)]

mod asks;
mod decided;
mod desk;
mod engine;
mod fault;
mod judged;
mod posts;
mod seat;
mod shared;
mod showing;
mod single;
mod state;

pub use decided::{Decided, decide};
pub use desk::Desk;
pub use engine::Engine;
pub use fault::ShareFault;
pub use posts::{Post, Served, serve};
pub use seat::Seat;
pub use shared::{Closed, Lock, Service, Shared, Unshared, make_shared};
pub use single::serve_single;
pub use state::Since;
