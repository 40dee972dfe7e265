//! The texts of a document: the values, in document order, of all nodes that have one.
//!
//! `TextTable` takes them while a document is read, and keeps each different text once. `TextList` is the list of an open
//! document, which edits change. `TextCopy` makes a new list, most of whose texts stand in one that is there. `Dictionary` has the different
//! texts of a list, and the place of each text among them. `TextList::marks` tells which
//! texts equal some literals. Callers see lists of lists of bytes. Inside, a list is numbers of texts, in chunks, so that an edit moves the
//! numbers of one chunk and no text.
#![tactic(auto)]

mod blob;
mod chunk;
mod copying;
mod dictionary;
mod finding;
mod list;
mod listing;
mod marking;
mod opening;
mod places;
mod removing;
mod table;

pub use copying::TextCopy;
pub use dictionary::Dictionary;
pub use list::TextList;
pub use listing::ListedTable;
pub use marking::mark_of;
pub use table::TextTable;
