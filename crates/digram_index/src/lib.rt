//! The kept index of the digrams of a grammar.
//!
//! An `Index` has an occurrence for each lower node, found by the node's number. `threads` keeps items in groups, each group a list in
//! which one item is put in or taken out in a constant number of steps, and `thread` is what it keeps at a place; `uppers` has the upper
//! node of each lower one; `patterns` tells digrams apart, `packed_pattern` is what it keeps of one, and `call_chains` leads from a rule to
//! the patterns that call it; `numbers` gives rules numbers that stay, and `labels` writes labels by these; `ranking` keeps the digrams in
//! buckets by rank and by key, which `entry_key` counts; `entries` joins these, and knows nothing of grammars; `room` is how their lists
//! grow. `index` links what `occurrence` reads of a grammar, and answers which digram to replace next (`top`, `twice`) and where a rule is
//! called (`call_of`); `alike` goes over the occurrences of a digram. `nodes` reads, unlinks and links single nodes, `building` all those
//! of a rule or of a grammar. `inlining` keeps the index while a call gives way to a body, whose copy `copying` links, `calling` while a
//! term gives way to a call, and `dropping` while a rule goes; `reading` reads what stands around a node, and `roots` finds roots and what
//! has them. `touched` keeps the nodes that were linked last, as a hint. `marking` marks nodes, by `flags` of their numbers, until they are
//! unlinked: so a marked node has stood since it was marked, and what keeps each rule's value keeps what stands before it in the start; a
//! rule that has the same number before and behind has the same value (`specs/Marking.antt`). Contracts see the cells by node number
//! (`specs/Linked.antt`) and compare them with the occurrences of a grammar (`specs/Digrams.antt`).
#![tactic(auto)]

mod alike;
mod building;
mod call_chains;
mod calling;
mod copying;
mod dropping;
mod entries;
mod entry_key;
mod flags;
mod index;
mod inlining;
mod labels;
mod marking;
mod nodes;
mod numbers;
mod occurrence;
mod packed_pattern;
mod patterns;
mod ranking;
mod reading;
mod room;
mod roots;
mod thread;
mod threads;
mod touched;
mod triples;
mod uppers;

pub use building::{build, link_all, link_nodes, unlink_all, unlink_nodes};
pub use calling::call_linked;
pub use dropping::drop_linked;
pub use index::{FoundCall, Index};
pub use inlining::inline_linked;
pub use nodes::{arity_of, following, item, link_node, site, unlink_kids, unlink_node};
pub use roots::{rule_with, stands_in_start};
pub use slt_grammar::Digram;
