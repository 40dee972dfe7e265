// What an edit changes, and why it may not be made.
use digram_index::Index;
use plain_tree::{Kind, Names};
use preorder_address::Marks;
use segment_counts::Counts;
use slt_grammar::Grammar;
use std::alloc::AllocError;
use text_list::TextList;

/// A document, held as a grammar over a table of names beside its texts, with the counts of the grammar's segments, the index of its digrams,
/// and the marks of its start at which a search for a node may begin.
pub struct Store {
    pub grammar: Grammar,
    pub names: Names,
    pub texts: TextList,
    pub counts: Counts,
    pub index: Index,
    pub marks: Marks,
}

impl Drop for Store {
    fn drop(self) {
        let Store {
            grammar: _grammar,
            names: _names,
            texts: _texts,
            counts: _counts,
            index: _index,
            marks: _marks,
        } = self;
    }
}

/// Why an edit is not made. The causes are tried in this order.
#[derive(Clone, Copy, Debug, PartialEq, Eq)]
pub enum EditError {
    /// The document has this many nodes, and the number is not below it.
    NoNode { count: u64 },
    /// A node of this kind, where it stands, doesn't let the edit.
    NotAllowed { kind: Kind },
    /// The document would have more than 2^63 - 1 nodes.
    TooMany,
    Memory,
}

impl From<AllocError> for EditError {
    ghost use Rattle.std.specs.Prelude.{◌≡◌};
    ghost use Rattle.tree_updates.specs.declared.store.EditError.TheVariants.{Memory};

    ghost from_gives = { λ _ error. error ≡ Memory };

    fn from(_: AllocError) -> EditError {
        EditError::Memory
    }
}
