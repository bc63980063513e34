//! Requests, as HTTP/1.x writes them (RFC 9112), what they ask, and replies.
#![tactic(auto)]

mod ask;
mod body;
mod fault;
mod fields;
mod head;
mod laws;
mod limits;
mod lines;
mod method;
mod path;
mod query;
mod reading;
mod refusal;
mod reply;
mod request;
mod routing;
mod serving;

pub use ask::{Ask, DefineAsk, Precision, TaskAct, TaskAsk, TopicAsk, WriteAsk};
pub use fault::HttpFault;
pub use head::Head;
pub use laws::{head_first, in_pieces, one_answer};
pub use limits::{BODY_LIMIT, FIELD_LIMIT, HEAD_LIMIT, WRITE_LIMIT, limits_are_numbers};
pub use lines::has_empty_line;
pub use reading::{read_head, read_request};
pub use refusal::{Refusal, error_reply};
pub use reply::{Reply, fault_text, no_memory_text, print_reply};
pub use request::Request;
pub use routing::route;
pub use serving::Serve;
