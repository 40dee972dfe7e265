//! XML both ways: documents, fragments and values from bytes, and nodes to saved bytes.
//!
//! A `Reader` is fed the bytes of a document in pieces of any size and makes the calls of a `Builder`; `TreeBuilder` is one that
//! builds a plain tree. Bytes become tokens in the crates `xml_tokenizer` and `xml_tokens`, tokens become calls in `xml_nodes`;
//! here both are joined (`feeding`, `reader`). `read_document`, `read_fragment` and `read_value` read bytes that are all there.
//! Bytes that can't be read are refused with the place where they go wrong. The `Writer` and what is lawful come from `xml_nodes`.
#![tactic(auto)]

mod documents;
mod error;
mod feeding;
mod laws;
mod reader;
mod tree_builder;
mod values;

pub use documents::{read_document, read_fragment};
pub use error::XmlError;
pub use laws::{calls_are_one, calls_begin};
pub use reader::Reader;
pub use tree_builder::TreeBuilder;
pub use values::read_value;
pub use xml_nodes::{Builder, Writer, lawful, name_length};
pub use xml_tokens::is_name;
