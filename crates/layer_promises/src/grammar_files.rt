// The bytes of a grammar file, as grammar_file promises them.
ghost use Rattle.std.specs.Prelude.{◌≡◌, ◌<◌, ◌≤◌, ◌^◌, ℕ, List, IfOk, Err, ◌≢◌, length, OnOk, OnErr};
ghost use Rattle.tree_outside.specs.Outside.{Gets, GetsFront, HasCause};
ghost use Rattle.tree_outside.specs.Shelf.{Keeps, Loses};
ghost use Rattle.plain_tree.specs.Tree.{Tree, node_count};
ghost use Rattle.plain_tree.specs.declared.kind.Kind.{Kind};
ghost use Rattle.slt_grammar.specs.Keyed.{rules_of};
ghost use Rattle.slt_grammar.specs.Standing.{StandsFor};
ghost use Rattle.slt_grammar.specs.declared.rules.Rule.{Rule};
ghost use Rattle.grammar_file.specs.FileBytes.{file_bytes};
ghost use Rattle.grammar_file.specs.Files.{IsFileOf};

use grammar_file::{FileError, Parts, WriteError, read, write};
use plain_tree::Names;
use slt_grammar::Grammar;
use std::alloc::Global;
use text_list::TextList;
use tree_outside::Sink;

/// The parts of a grammar file that stand for a document; Bad exactly where the bytes are the file of none.
pub fn read_file_told(alloc: Global, bytes: &[u8]) -> Result<Parts, FileError>
    ensures file { IfOk result (λ p. IsFileOf bytes.now p.names (rules_of p.grammar.rules) p.texts.texts) }
    ensures document { IfOk result (λ p. (t : Tree) × StandsFor (rules_of p.grammar.rules) p.names p.texts.texts t × (node_count t < 2 ^ 63)) }
    ensures bad { result ≡ Err FileError.Bad → (names : List (Kind × List ℕ)) (G : List Rule) (texts : List (List ℕ)) (t : Tree) → IsFileOf bytes.now names G texts → StandsFor G names texts t → ⊥ }
    ensures many { result ≡ Err FileError.TooMany → (names : List (Kind × List ℕ)) × (G : List Rule) × (texts : List (List ℕ)) × (t : Tree) × IsFileOf bytes.now names G texts × StandsFor G names texts t × (2 ^ 63 ≤ node_count t) }
{
    read(alloc, bytes)
}

/// The sink gets the bytes of the grammar file, and the answer counts them.
pub fn write_told<K: Sink>(
    grammar: &Grammar,
    names: &Names,
    texts: &TextList,
    sink: &mut K,
) -> Result<u128, WriteError>
    ensures written { OnOk result (Gets (K.got sink.old) (K.got sink.new) (file_bytes names.now (rules_of grammar.now.rules) texts.now.texts)) }
    ensures count { IfOk result (λ count. count ≡ length (file_bytes names.now (rules_of grammar.now.rules) texts.now.texts)) }
    ensures front { OnErr result (GetsFront (K.got sink.old) (K.got sink.new) (file_bytes names.now (rules_of grammar.now.rules) texts.now.texts)) }
    ensures kept { Keeps (K.kept sink.old) (K.kept sink.new) }
    ensures lost { result ≢ Err WriteError.Memory → Loses (K.kept sink.old) (K.got sink.old) (K.got sink.new) result }
    ensures cause { result ≢ Err WriteError.Memory → HasCause (K.faults sink.old) (K.faults sink.new) result }
    ensures memory { result ≡ Err WriteError.Memory → sink.new ≡ sink.old }
{
    let bytes = write(grammar, names, texts, sink)?;
    Ok(bytes)
}
