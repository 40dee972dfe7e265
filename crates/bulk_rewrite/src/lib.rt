//! Rewriting of all nodes that an automaton hits, by a rewriting of rules.
//!
//! From a grammar and the states in which each rule is met a new grammar is made, with one rule for each rule, states of its arguments
//! and down state: nodes get other symbols, or are taken out with what is below them. `rewriter` says what becomes of nodes; `rewriting`
//! makes the rules (`making`) from bodies that are walked in `frame`, and keeps in `places` what each was found to hand on.
//!
//! `rename_all` (`renaming_all`) gives the nodes of a document that are hit another name. A run of `refusing` tells whether all may have it,
//! by what `signs` has of the symbols (`hit_runs`), and `new_names` lets the names grow; `renaming` is the rewriting.
//!
//! `delete_all` (`deleting_all`) takes the nodes that are hit out, with all below them. A run of `sparing` tells whether all may go, by the
//! `kinds` of the symbols; `joining` is the rewriting, in which texts that meet become one. `value_fates` lists what becomes of the values: by
//! `tagging` each node gets its fate for a symbol, and `value_hits` hits those with a value. `redoing` makes the new texts of the old ones.
//!
//! The `laws` say of both what the new rules stand for, and when it is allowed.
#![tactic(auto)]

mod deleting_all;
mod frame;
mod hit_runs;
mod joining;
mod kinds;
mod laws;
mod making;
mod new_names;
mod places;
mod redoing;
mod refusing;
mod renaming;
mod renaming_all;
mod rewriter;
mod rewriting;
mod signs;
mod sparing;
mod tagging;
mod value_fates;
mod value_hits;

pub use deleting_all::{Rewritten, delete_all};
pub use laws::{
    deletion_stands, refuses_exactly, renaming_stands, rewriting_has_value, spares_exactly,
};
pub use renaming::Renaming;
pub use renaming_all::{BulkError, rename_all};
pub use rewriter::Rewriter;
pub use rewriting::rewrite;
