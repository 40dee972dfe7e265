//! What the tokens of XML are, and which text is which token.
//!
//! A token is a part of a document that can be told by its own text, whatever follows it: a character, a reference, a CDATA
//! section, a start tag, an empty-element tag or an end tag, a comment, a processing instruction, the XML declaration, a
//! DOCTYPE without an internal subset. `Found` is a token with the parts of its text, `read_token` reads one (`tokens`), from
//! names (`characters`), parts between signs (`cutting`), references, values, attributes and declarations. `read_value` reads
//! what may stand between quotes alone. Where a token ends, and line ends, are matters of the crate above, `xml_tokenizer`.
#![tactic(auto)]

mod attributes;
mod characters;
mod cutting;
mod declarations;
mod laws;
mod name_set;
mod references;
mod tokens;
mod values;

pub use attributes::Attribute;
pub use characters::{are_chars, is_name, is_name_char, is_name_start, is_xml};
pub use cutting::skip_to;
pub use laws::{one_token, read_is_token, token_is_read};
pub use tokens::{Found, read_char, read_token};
pub use values::{Spaces, Value, read_value};
