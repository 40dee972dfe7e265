// Why a grammar file was not read.
use slt_grammar::GrammarError;
use std::alloc::AllocError;
use thiserror::Error;

/// Why bytes were not read as a grammar file.
#[derive(Clone, Copy, Debug, PartialEq, Eq, Drop, Error)]
pub enum FileError {
    /// They are the file of no parts that stand for a document.
    #[error("the bytes are no grammar file of a document")]
    Bad,
    /// They are, and the document has more than 2^63 - 1 nodes.
    #[error("the grammar file's document has too many nodes")]
    TooMany,
    /// There was no memory.
    #[error("there is no memory to read the grammar file")]
    Memory,
}

impl From<AllocError> for FileError {
    ghost use Rattle.std.specs.Prelude.{◌≡◌};
    ghost use Rattle.grammar_file.specs.declared.error.FileError.TheVariants.{Memory};

    ghost from_gives = { λ _ e. e ≡ Memory };

    fn from(_: AllocError) -> FileError {
        FileError::Memory
    }
}
