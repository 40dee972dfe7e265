//! What comparisons of texts and attribute values in queries stand on: grammars in which marked texts are told apart.
//!
//! A text of a document has a mark where it equals a literal of a query. A run over shared rules sees symbols alone, so that it can't
//! tell a marked text from another: `isolate_marked` (`isolate`) makes a grammar in which each instance of a rule that has a marked text
//! is a rule of its own, and each node with a marked text has another symbol. A run over that grammar answers comparisons by symbols.
//!
//! `marks` has the marks of all texts. What becomes a rule are `spots`: a rule without marked texts, or a rule at a place of the list of
//! texts. Their `bodies` are made of what stands in a `source`: counts tell of `calls` how many texts they have, so that a body is
//! measured from its end (`sizes`) and then gets its symbols from its root on (`relabel`), with numbers on a `stack`. `assemble` makes a
//! grammar of all bodies, and tests that the rules of marked instances are `apart`.
#![tactic(auto)]

mod apart;
mod assemble;
mod bodies;
mod calls;
mod isolate;
mod marks;
mod relabel;
mod sizes;
mod source;
mod spots;
mod stack;

pub use isolate::isolate_marked;
pub use marks::Marks;
