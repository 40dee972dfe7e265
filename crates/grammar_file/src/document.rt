// Grammar files of documents, read.
ghost use Rattle.std.specs.Prelude.{◌≡◌, ◌<◌, ◌≤◌, ◌^◌, ℕ, List, IfOk, Err};
ghost use Rattle.plain_tree.specs.declared.kind.Kind.{Kind};
ghost use Rattle.plain_tree.specs.Tree.{Tree, node_count};
ghost use Rattle.slt_grammar.specs.Keyed.{rules_of};
ghost use Rattle.slt_grammar.specs.Standing.{StandsFor};
ghost use Rattle.slt_grammar.specs.declared.rules.Rule.{Rule};
ghost use Rattle.grammar_file.specs.Files.{IsFileOf};

use crate::error::FileError;
use crate::lawful::is_document;
use crate::parsing::{Parts, parse_file};
use segment_counts::{CountError, Counts};
use std::alloc::Global;

/// The parts whose file the bytes are, in version 1 or 2.
///
/// `Bad` comes exactly where the bytes are no file of parts that stand for a document, `TooMany` exactly where they are and the
/// document has more than 2^63 - 1 nodes. Nothing is unfolded, and a count is believed only as far as there are bytes for what it
/// counts.
pub fn read(alloc: Global, bytes: &[u8]) -> Result<Parts, FileError>
    ensures file { IfOk result (λ p. IsFileOf bytes.now p.names (rules_of p.grammar.rules) p.texts.texts) }
    ensures document { IfOk result (λ p. (t : Tree) × StandsFor (rules_of p.grammar.rules) p.names p.texts.texts t × (node_count t < 2 ^ 63)) }
    ensures bad { result ≡ Err FileError.Bad → (names : List (Kind × List ℕ)) (G : List Rule) (texts : List (List ℕ)) (t : Tree) → IsFileOf bytes.now names G texts → StandsFor G names texts t → ⊥ }
    ensures many { result ≡ Err FileError.TooMany → (names : List (Kind × List ℕ)) × (G : List Rule) × (texts : List (List ℕ)) × (t : Tree) × IsFileOf bytes.now names G texts × StandsFor G names texts t × (2 ^ 63 ≤ node_count t) }
{
    let parts = parse_file(alloc, bytes)?;
    if !is_document(alloc, &parts.grammar, &parts.names, &parts.texts)? {
        return Err(FileError::Bad);
    }
    match Counts::new(alloc, &parts.grammar, &parts.names) {
        Ok(_) => Ok(parts),
        Err(CountError::TooMany) => Err(FileError::TooMany),
        Err(CountError::Memory) => Err(FileError::Memory),
    }
}
