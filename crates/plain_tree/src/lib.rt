//! The plain tree of a document.
//!
//! A document is a tree of nodes, each with a kind, a name, a value and a list of kids. `Kind`, `Bytes`, `Node` and
//! `Nodes` hold one; contracts speak of the tree for which a node stands. `Walk` goes over a tree in document order. `Names`
//! and `Texts` hold what a document has beside its shape. `Edit` is a change of a document at one of its nodes.
#![tactic(auto)]

mod bytes;
mod edit;
mod kind;
mod laws;
mod names;
mod nodes;
mod texts;
mod walk;

pub use bytes::Bytes;
pub use edit::Edit;
pub use kind::Kind;
pub use laws::{
    edits_are_counted, edits_keep_documents, edits_keep_texts_joined, merged_texts_are_counted,
    nodes_are_counted, plain_edits_in_turn, texts_join_at_seams, visits_open_nodes,
};
pub use names::Names;
pub use nodes::{Node, Nodes};
pub use texts::Texts;
pub use walk::{Visit, Walk};
