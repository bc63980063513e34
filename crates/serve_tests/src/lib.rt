//! Tests of the words of a service: what `clap` reads of them, and what the faults of a service print.
#![tactic(auto)]

#[cfg(test)]
mod faults;
#[cfg(test)]
mod options;
