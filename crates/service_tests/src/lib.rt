//! Tests of the service: what seats are told and read, ledgers, links at doors, and a lock that is held. They are over
//! an engine in memory, and over that of tasks on a disk in memory.
#![tactic(auto)]

#[cfg(test)]
mod asks;
#[cfg(test)]
mod disks;
#[cfg(test)]
mod doors;
#[cfg(test)]
mod fake;
#[cfg(test)]
mod held_disk;
#[cfg(test)]
mod holds;
#[cfg(test)]
mod one_post;
#[cfg(test)]
mod rows;
#[cfg(test)]
mod single;
