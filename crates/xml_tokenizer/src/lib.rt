//! Cuts the bytes of a document, which come in pieces of any size, into the tokens of XML.
//!
//! A token is what `xml_tokens` says: a character, a reference, a section, a tag, a comment, an instruction, a declaration or a
//! DOCTYPE, by its exact text. The tokens go to a `TokenSink`, a machine that takes a token or refuses it.
//!
//! A piece flows like this. `Tokenizer::feed` (`tokenizer`) cuts it at line ends, which become #xA each. Where nothing is held,
//! a run of plain characters goes to the sink as one slice (`runs`), and a token that lies whole in the piece is read there. A
//! scan of constant state (`scan`) finds where a token ends; the text of a token that a piece cuts off is held until it is
//! whole. `start` tells where the token begins that is held, or that broke.
#![tactic(auto)]

mod laws;
mod runs;
mod scan;
mod sink;
mod tokenizer;

pub use laws::{characters_are_tokens, one_cut, one_cutting, scans};
pub use scan::{Scan, Step};
pub use sink::{Refused, RunRefused, TokenSink};
pub use tokenizer::{TokenError, Tokenizer};
