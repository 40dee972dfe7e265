//! Grammar files: the bytes in which the names, the rules and the texts of a document are kept.
//!
//! `write` gives them to a sink, in pieces, and `write_with` does so from a dictionary of the texts. `read` (`document`) takes the parts from the bytes that are theirs, and decides whether they
//! stand for a document. `equal_files_have_equal_parts` says that a file belongs to one list of names, one list of rules and one list of
//! texts alone, `numbers_are_read_back` that the numbers in it are LEB128.
//!
//! `parsing` reads the parts of a file again: a `Scan` stands at a place in the bytes, `names` and `rules` read theirs from it. What
//! was read is told by its bytes alone, so bytes are bad exactly where no parts have them.
//!
//! `lawful` decides whether rules, names and texts stand for a document, and unfolds nothing: `chains` runs upward over the rules and
//! tells what is lawful but for values and for attributes of equal names; `texts_of` holds the texts against the symbols that have one,
//! which `text_lists` lists rule by rule and `text_walk` tells one after another, and `attributes` finds equal ones among them.
#![tactic(auto)]

mod attributes;
mod buffer;
mod chains;
mod document;
mod error;
mod lawful;
mod laws;
mod names;
mod parsing;
mod rules;
mod scan;
mod text_lists;
mod text_walk;
mod texts_of;
mod writing;

pub use document::read;
pub use error::FileError;
pub use laws::{equal_files_have_equal_parts, numbers_are_read_back};
pub use parsing::Parts;
pub use writing::{WriteError, write, write_with};
