//! Rules that save nothing.
//!
//! `saving` says how many nodes a rule saves, and `prune` takes away the rules that save none, while an index is kept: their bodies come
//! in the place of their calls. `savings` reads of a body what tells whether its rule saves, `call_search` finds the calls of a rule through
//! the index, `inlining` replaces them, and `pruning` goes over the rules, callees first. Of a body that stays a few nodes are read, however
//! long it is. `dissolve` takes away rules that save little, for a grammar that is settled anew.
#![tactic(auto)]

mod call_search;
mod dissolving;
mod inlining;
mod pruning;
mod savings;

pub use dissolving::dissolve;
pub use pruning::prune;
pub use savings::saving;
