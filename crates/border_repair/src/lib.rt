//! Digrams across the borders of rules.
//!
//! A digram may occur in what a grammar stands for and in none of its rules: its upper node stands in one body and its lower one in
//! the body of a rule that is called there. `weights` counts all such occurrences at once. `rims` has what each rule's value shows to
//! those who call it: the label of its root, and what its parameters hang under. `uses` counts how often each rule is used, and
//! adds what arises in it as often. `edge` is what is counted.
//!
//! `across` replaces all of them at once, and unfolds no call. `replacing` makes rules from the first to the start: in each body the
//! calls give way to what stays outside of the called rules (`expanding`), and the body is cut into parts, which are rules of their
//! own, and the nodes at its border that may belong to the digram, which are its outside (`cutting`). Then both nodes of each occurrence
//! stand in one body, and `folding` makes them a call of the digram's rule.
#![tactic(auto)]

mod cutting;
mod edge;
mod expanding;
mod folding;
mod replacing;
mod rims;
mod uses;
mod weights;

pub use replacing::across;
pub use slt_grammar::Digram;
pub use weights::Weights;
