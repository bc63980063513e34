//! Asks of the parts that no command shows what the lines of standard input say, and prints what they answer,
//! a line for each.
#![tactic(auto)]

mod answers;
mod links;
mod pieces;
mod polled;
mod readers;
mod records;
mod replies;
mod requests;
mod store_calls;
mod stored;
mod stores;
mod texts;

use anyhow::Result;
use case_text::answer_lines;
use stored::Stored;

fn main(rt: HostRuntime) -> Result<()> {
    answer_lines::<HostRuntime, Stored>(&rt)
}
