//! Numbers of nodes for each rule of a grammar, so that a node is found by its number and nothing is unfolded.
//!
//! The parameters of a rule cut the preorder of its value into segments, one more than it has parameters. `Counts` keeps of each
//! segment how many nodes it has, how many of them have a text, and how many nodes and bottoms. `counting` makes these numbers, one
//! tour of each body after another, with a `tally` of the sums along the tour. Where the grammar changes, `changes` and `following` make
//! them follow.
#![tactic(auto)]

mod changes;
mod counting;
mod counts;
mod following;
mod row_moves;
mod tally;

pub use counting::CountError;
pub use counts::{Counts, Measure, Weights};
