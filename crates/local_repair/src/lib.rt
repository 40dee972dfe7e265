//! Settled grammars.
//!
//! `settle` replaces the most frequent digram by a rule as long as one has three occurrences that share no node, takes away the rules that
//! save nothing, and does so until neither is left. `settle_touched` does the same over an index that is kept, and so does `settle_edited`;
//! before, `reusing` makes calls of rules that are there of what an edit exposed of their bodies. `settle_deeply` takes rules apart first, so
//! that others can come.
#![tactic(auto)]

mod deep;
mod reusing;
mod settling;

pub use deep::settle_deeply;
pub use settling::{settle, settle_edited, settle_touched};
