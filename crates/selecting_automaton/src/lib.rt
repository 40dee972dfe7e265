//! Queries as automata: which nodes a query selects, found by runs over what a grammar stands for.
//!
//! A query is written out as turns in postfix order (`turns`), by `compile` (`compiling`, `filters`). At each node the selector goes
//! through them once, with a stack of truths: upward for what the parts of its filters find below and beside a node (`climb`), downward
//! for where its paths have come (`descent`). Both judge its filters on the way (`judge`), and read a symbol's kind once (`sight`). Its
//! `states` are words with a bit for each part or step; a query has at most 64 of either. Where a query has no filters, the selector of
//! `unfiltered` hits the same nodes, and finds nothing out upward.
#![tactic(auto)]

mod climb;
mod compiling;
mod descent;
mod filters;
mod judge;
mod laws;
mod selector;
mod sight;
mod states;
mod turns;
mod unfiltered;

pub use compiling::compile;
pub use laws::{spelled_are_small, words_are_lists};
pub use selector::Selector;
pub use states::{Down, Up};
pub use turns::{Turn, Wanted};
pub use unfiltered::BlindSelector;
