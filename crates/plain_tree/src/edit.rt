// Edits of a document.
ghost use Rattle.std.specs.Prelude.{◌≡◌};
ghost use Rattle.plain_tree.specs.Edits.{number_of};

use crate::{Bytes, Nodes};

/// A change of a document at the node with a number.
#[derive(Drop)]
pub enum Edit {
    /// The node gets this name.
    Rename {
        number: u64,
        name: Bytes,
    },
    /// The nodes come to stand before the node, among its siblings.
    Insert {
        number: u64,
        fragment: Nodes,
    },
    /// The nodes come to stand behind the last kid of the node.
    Append {
        number: u64,
        fragment: Nodes,
    },
    /// The node is gone, and all below it.
    Delete {
        number: u64,
    },
    /// The node gets this value.
    Value {
        number: u64,
        value: Bytes,
    },
    /// The attribute of the node with this name gets this value; where there was none, it comes to stand behind the others.
    Attr {
        number: u64,
        name: Bytes,
        value: Bytes,
    },
    /// An equal node comes to stand before the node, with all below it.
    Copy {
        number: u64,
    },
}

impl Edit {
    /// The number of the node at which the edit is made.
    pub fn number(&self) -> u64
        ensures { result ≡ number_of self.now }
    {
        match self {
            Edit::Rename { number, .. }
            | Edit::Insert { number, .. }
            | Edit::Append { number, .. }
            | Edit::Delete { number }
            | Edit::Value { number, .. }
            | Edit::Attr { number, .. }
            | Edit::Copy { number } => *number,
        }
    }
}
