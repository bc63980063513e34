//! Tests of nets: steps counted by hand, nets that go on from what was captured of others, and the ends of an
//! edge.
#![tactic(auto)]

#[cfg(test)]
mod captures;
#[cfg(test)]
mod ends;
#[cfg(test)]
mod points;
#[cfg(test)]
mod steps;
#[cfg(test)]
mod taps;
