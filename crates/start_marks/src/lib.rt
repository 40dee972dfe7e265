//! Marks that stay or move: a mark of a grammar's start is one still where what stands before the start's nodes was kept.
//!
//! A mark is the key of a node of the start with the weights of what the start's tour passes before it. Such weights are sums over the
//! labels before the node, which each step of settling keeps but for the nodes whose keys it takes away. So a mark dies only with its key.
//! An edit changes the value at one node of the start: the marks before it stay, and those behind it move by what the value has come to
//! weigh more or less.
#![tactic(auto)]

mod laws;
mod marking;

pub use laws::{marks_move, marks_stay, stops_weigh_their_labels};
pub use marking::{keep_marked, mark_nodes};
