// Commands.

/// What a session is asked to do. Names of files are any text that isn't empty.
#[derive(Clone, Copy, Debug)]
pub enum Command<'a> {
    /// The document becomes that of the XML file with this name.
    Load {
        name: &'a str,
    },
    /// The document becomes that of the grammar file with this name, under the file's grammar.
    LoadGrammar {
        name: &'a str,
    },
    /// The document is written to the file with this name.
    Save {
        name: &'a str,
    },
    /// The names, the grammar and the texts are written to the file with this name.
    SaveGrammar {
        name: &'a str,
    },
    /// The node with this number is printed, and number 0 prints the document as `Save` writes it.
    Show {
        number: u64,
    },
    /// The nodes that the query selects are listed, each on a line, and counted.
    Query {
        text: &'a [u8],
    },
    /// The nodes that the query selects are printed, each as by `Show`, and counted.
    ShowAll {
        text: &'a [u8],
    },
    /// The nodes that the query selects are counted.
    Count {
        text: &'a [u8],
    },
    /// The node with this number gets this name.
    Rename {
        number: u64,
        name: &'a [u8],
    },
    /// The nodes that these bytes spell come to stand before the node with this number.
    Insert {
        number: u64,
        fragment: &'a [u8],
    },
    /// The nodes that these bytes spell come to stand behind the last kid of the node with this number.
    Append {
        number: u64,
        fragment: &'a [u8],
    },
    /// The node with this number is deleted, with all below it.
    Delete {
        number: u64,
    },
    /// The node with this number gets the value that these bytes spell.
    Value {
        number: u64,
        value: &'a [u8],
    },
    /// The attribute with this name of the node with this number gets the value that these bytes spell; where there is none, it comes to
    /// stand behind the others.
    Attr {
        number: u64,
        name: &'a [u8],
        value: &'a [u8],
    },
    /// An equal node comes to stand before the node with this number, with all below it.
    Copy {
        number: u64,
    },
    /// All nodes that the query selects get this name.
    RenameAll {
        name: &'a [u8],
        query: &'a [u8],
    },
    /// All nodes that the query selects are deleted, with all below them.
    DeleteAll {
        query: &'a [u8],
    },
    /// The elements that the schema in the file with this name does not allow are counted.
    Check {
        name: &'a str,
    },
    /// The grammar is settled.
    Repair,
    /// The heaviest digram of the whole document becomes a rule, also where calls and parameters hide it, and the grammar is settled.
    RepairWide,
    /// The document becomes the one that `record_generator` makes with so many records, 1 to 200,000.
    Generate {
        records: u64,
    },
}
