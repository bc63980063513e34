//! Tests of what no text shows: files in a folder, clocks, and values that go to another thread.
#![tactic(auto)]

#[cfg(test)]
mod devices;
#[cfg(test)]
mod folders;
#[cfg(test)]
mod limits;
#[cfg(test)]
mod locks;
#[cfg(test)]
mod sends;
