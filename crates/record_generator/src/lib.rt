//! A large document that is made from a number.
//!
//! `records` has `generate`, which makes the calls of the document at any `Builder`; the document is the definition `generated`
//! (specs/Records). `laws` says that it is a document, and how many nodes it has at most.
#![tactic(auto)]

mod laws;
mod records;

pub use laws::generates_documents;
pub use records::generate;
