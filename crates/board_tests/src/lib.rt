//! Tests of a board of topics: what looks see, in one thread and in several, and what a copy of topics holds.
#![tactic(auto)]

#[cfg(test)]
mod copies;
#[cfg(test)]
mod locks;
#[cfg(test)]
mod looks;
#[cfg(test)]
mod posts;
#[cfg(test)]
mod rows;
#[cfg(test)]
mod watches;
