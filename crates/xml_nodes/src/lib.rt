//! XML between tokens and nodes, both ways.
//!
//! Reading goes from bytes to tokens (the crates below), from tokens to the calls of a `Builder` by a machine that keeps what is
//! open (`machine`), and so to a tree. `specs/` says on the side of trees which tokens are which document (`Content`) and
//! which bytes spell it (`Spelling`); `laws` has what holds between both. A `Writer` goes the other way: the calls of a tree
//! write its spelling.
#![tactic(auto)]

mod builder;
mod lawful_nodes;
mod laws;
mod machine;
mod names;
mod output;
mod stage;
mod writer;

pub use builder::Builder;
pub use lawful_nodes::{is_lawful_name, lawful};
pub use laws::{
    calls_save_document, calls_write_tree, document_leads, fragment_leads, leads_to_document,
    leads_to_fragment, saved_is_spelled, spells_document, spells_fragment, spells_one,
    spells_one_list, spells_one_value,
};
pub use machine::{Machine, Refusal};
pub use names::name_length;
pub use stage::Stage;
pub use writer::Writer;
pub use xml_tokens::is_name;
