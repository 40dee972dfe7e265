//! The tokens of a subtree in document order, over the rules of a grammar and without unfolding them.
//!
//! `Cursor::new` goes down to a node by its number, and `Cursor::next` gives one `Token` after another. A cursor keeps one stop for
//! each rule of the chain of calls in which it stands, and the tokens of short segments, which it tells again without reading nodes. Its
//! memory depends on the number of rules alone, and all of it is taken in `new`. A `Finder` goes from one node to a later one, and a
//! cursor begins anew where it stands. `laws` says that the tokens are those of the tree for which the grammar stands. `most_open` says
//! how many nodes are open at once, for whoever keeps something of each of them.
#![tactic(auto)]

mod cursor;
mod entering;
mod finder;
mod kept;
mod laws;
mod rises;

pub use cursor::{Cursor, Token};
pub use finder::Finder;
pub use laws::cursors_tell_subtrees;
pub use rises::most_open;
