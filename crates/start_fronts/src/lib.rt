//! What a grammar that settles or is edited keeps of its start: which labels of the value stand before each node, or from it on.
//!
//! Settling changes a grammar by steps that keep each rule's value: a node and its parent become a call, a call gives way to the body
//! of its rule or such a body to a call, and rules come and go. `laws` says that each step keeps the labels that the tour passes
//! before each node of the start, but for the nodes whose keys it takes away (`KeepsBefore`).
//!
//! An edit changes the value at one node of the start, by another symbol, by a child in the node's place or by a body around it. `edits`
//! says that what stands before the nodes in front of it is the same, and from the nodes behind it on (`MovesBefore`).
#![tactic(auto)]

mod edits;
mod laws;

pub use edits::{
    holes_stand_behind, isolating_keeps_before, lifting_moves_before, moves_compose,
    relabelling_moves_before, sharing_keeps_before, wrapping_moves_before,
};
pub use laws::{
    calling_keeps_before, changes_compose, folding_keeps_before, inlining_keeps_before,
    others_keep_before, renumbering_keeps_before,
};
