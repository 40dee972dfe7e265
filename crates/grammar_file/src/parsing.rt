// Grammar files, from bytes to their parts.
ghost use Rattle.std.specs.Prelude.{◌≡◌, ◌≢◌, ◌<◌, ℕ, List, [], length, IfOk};
ghost use Rattle.plain_tree.specs.declared.kind.Kind.{Kind};
ghost use Rattle.slt_grammar.specs.Keyed.{rules_of};
ghost use Rattle.slt_grammar.specs.declared.rules.Rule.{Rule};
ghost use Rattle.grammar_file.specs.FileBytes.{list_bytes, text_bytes, dictionary_bytes};
ghost use Rattle.grammar_file.specs.Numbers.{number_bytes};
ghost use Rattle.grammar_file.specs.Versions.{texts_bytes};
ghost use Rattle.text_list.specs.Dictionaries.{dictionary_of};
ghost use Rattle.std.specs.List.{All};
ghost use Rattle.grammar_file.specs.Files.{IsFileOf};
ghost use Rattle.grammar_file.specs.Reading.{ReadsAs};

use crate::error::FileError;
use crate::names::read_names;
use crate::rules::read_grammar;
use crate::scan::{Scan, Version};
use plain_tree::Names;
use slt_grammar::Grammar;
use std::alloc::Global;
use text_list::{ListedTable, TextList, TextTable};

/// What a grammar file keeps of a document.
#[derive(Drop)]
pub struct Parts {
    pub grammar: Grammar,
    pub names: Names,
    pub texts: TextList,
}

/// The parts whose file the bytes are; they may stand for no document.
///
/// `Bad` comes exactly where they are no parts' file. A count is believed only as far as there are bytes for what it counts.
pub(crate) fn parse_file(alloc: Global, bytes: &[u8]) -> Result<Parts, FileError>
    ensures file { IfOk result (λ parts. IsFileOf bytes.now parts.names (rules_of parts.grammar.rules) parts.texts.texts) }
    ensures bad { result ≡ Err FileError.Bad → (names : List (Kind × List ℕ)) (G : List Rule) (texts : List (List ℕ)) → IsFileOf bytes.now names G texts → ⊥ }
    ensures few { result ≢ Err FileError.TooMany }
{
    let mut scan = Scan::new(bytes);
    let version = scan.mark()?;
    let names = read_names(alloc, &mut scan)?;
    let grammar = read_grammar(alloc, names.len(), &mut scan)?;
    let texts = read_texts_of(alloc, version, &mut scan)?;
    if !scan.is_empty() {
        return Err(FileError::Bad);
    }
    Ok(Parts {
        grammar,
        names,
        texts,
    })
}

// The texts, as files of a version have them.
fn read_texts_of(
    alloc: Global,
    version: Version,
    scan: &mut Scan<'_>,
) -> Result<TextList, FileError>
    ensures { ReadsAs (λ texts. texts.texts) (λ _. Unit {0}) (texts_bytes version) scan.old result scan.new }
{
    match version {
        Version::First => read_texts(alloc, scan),
        Version::Second => read_listed(alloc, scan),
    }
}

fn read_texts(alloc: Global, scan: &mut Scan<'_>) -> Result<TextList, FileError>
    ensures { ReadsAs (λ texts. texts.texts) (λ _. Unit {0}) (list_bytes text_bytes) scan.old result scan.new }
{
    let count = scan.count()?;
    let mut texts = TextTable::new(alloc);
    for _ in 0..count {
        texts.push(scan.text()?)?;
    }
    Ok(TextList::new(texts))
}

// The list of a dictionary.
fn read_listed(alloc: Global, scan: &mut Scan<'_>) -> Result<TextList, FileError>
    ensures { ReadsAs (λ texts. texts.texts) (λ _. Unit {0}) (λ texts. dictionary_bytes (dictionary_of texts)) scan.old result scan.new }
{
    let mut table = ListedTable::new(alloc);
    read_different(scan, &mut table)?;
    read_places(scan, &mut table)?;
    match table.finish()? {
        Some(list) => Ok(list),
        None => Err(FileError::Bad),
    }
}

// The different texts of a dictionary.
fn read_different(scan: &mut Scan<'_>, table: &mut ListedTable) -> Result<(), FileError>
    requires { table.old.different ≡ [] }
    ensures read { ReadsAs (λ _. table.new.different) (λ _. Unit {0}) (list_bytes text_bytes) scan.old result scan.new }
    ensures places { table.new.places ≡ table.old.places }
{
    let count = scan.count()?;
    for _ in 0..count {
        table.push(scan.text()?)?;
    }
    Ok(())
}

// The places of the texts among the different ones.
fn read_places(scan: &mut Scan<'_>, table: &mut ListedTable) -> Result<(), FileError>
    requires { table.old.places ≡ [] }
    ensures read { ReadsAs (λ _. table.new.places) (All (λ place. place < length table.old.different)) (list_bytes number_bytes) scan.old result scan.new }
    ensures different { table.new.different ≡ table.old.different }
{
    let texts = table.len();
    let count = scan.count()?;
    for _ in 0..count {
        table.place(scan.place(texts)?)?;
    }
    Ok(())
}
