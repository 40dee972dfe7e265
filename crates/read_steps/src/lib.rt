//! A counter of the reads of grammar nodes.
//!
//! A call whose reads are bounded takes `steps: &mut Steps<L>` as its last parameter, and its contract says by how much
//! the count may rise. The counter has no bytes at run time, and nothing but `tick` changes it.
#![tactic(auto)]

mod steps;

pub use steps::Steps;
