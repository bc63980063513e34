//! Types of lambdas, and their patterns.
#![tactic(auto)]

mod cache;
mod fault;
mod functions;
mod inference;
mod lambda;
mod pattern;
mod pattern_list;
mod patterns;
mod program;
mod sends;
mod types;
mod walk;

pub use cache::CACHE_LIMIT;
pub use fault::TypeFault;
pub use functions::Function;
pub use inference::{first_fault_is_first, infer, typed_without_fault};
pub use lambda::Lambda;
pub use pattern::{Pattern, PatternFault};
pub use pattern_list::PatternList;
pub use patterns::{Patterns, RegexPatterns};
pub use sends::{send_lambda, send_pattern};
pub use types::Ty;
