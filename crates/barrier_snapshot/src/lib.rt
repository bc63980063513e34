//! The states of a net's nodes at a barrier, as bytes: what is captured of a net is restored as one
//! that goes on from there.
#![tactic(auto)]

mod capturing;
mod fault;
mod laws;
mod loading;
mod passing;
mod restoring;
mod snapshots;

pub use capturing::capture;
pub use fault::SnapFault;
pub use laws::{
    captures_are_restored, cells_go_on, faults_have_places, lives_are_planned, lives_stand,
    nets_collect_alike, nets_go_on, states_are_kept, streams_are_steady,
};
pub use passing::{has_passed, has_passed_inside};
pub use restoring::restore;
pub use snapshots::snapshots_are_whole;
