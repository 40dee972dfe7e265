// Whether texts are those of a grammar's value.
ghost use Rattle.std.specs.Prelude.{◌≡◌, ◌<◌, [], ℕ, List, Some, true, false, slice_get, IfOk, IsTrue, ◌↔◌};
ghost use Rattle.plain_tree.specs.declared.kind.Kind.{Kind};
ghost use Rattle.plain_tree.specs.Lawful.{IsLawfulName};
ghost use Rattle.slt_grammar.specs.Grammars.{value};
ghost use Rattle.slt_grammar.specs.Keyed.{rules_of};
ghost use Rattle.slt_grammar.specs.Segments.{listed};
ghost use Rattle.grammar_file.specs.TextSymbols.{IsTextOf};
ghost use Rattle.grammar_file.specs.Unlike.{AreRightTexts};

use crate::attributes::Attributes;
use crate::text_lists::{Mark, list_texts};
use crate::text_walk::{first_levels, next_mark};
use plain_tree::Names;
use read_steps::Steps;
use slt_grammar::Grammar;
use std::alloc::{AllocError, Global};
use std::marker::Brand;
use std::sync::ledger::{Blank, Ledger};
use text_list::TextList;
use xml_nodes::lawful;

/// Whether the list has exactly one lawful text for each node of the value that has one, in document order, and attributes of one
/// element have distinct names.
///
/// It takes time for the grammar, and for each text of the list at most a few steps for each rule.
pub(crate) fn are_texts_of(
    alloc: Global,
    grammar: &Grammar,
    names: &Names,
    texts: &TextList,
) -> Result<bool, AllocError>
    requires { (i : ℕ) (kind : Kind) (name : List ℕ) → slice_get names.now i ≡ Some (kind, name) → IsLawfulName kind name }
    ensures { IfOk result (λ yes. IsTrue yes ↔ AreRightTexts names.now (listed (value (rules_of grammar.now.rules)) []) texts.now.texts) }
{
    walk_texts::<Brand>(alloc, grammar, names, texts, Blank::new(1))
}

// The same, with a counter of the ledger `L` for the reads of nodes.
fn walk_texts<L: Ledger>(
    alloc: Global,
    grammar: &Grammar,
    names: &Names,
    texts: &TextList,
    blank: Blank,
) -> Result<bool, AllocError>
    requires name { blank.name ≡ L.name }
    requires parts { blank.parts ≡ L.parts }
    requires some { 0 < blank.parts }
    requires lawful { (i : ℕ) (kind : Kind) (name : List ℕ) → slice_get names.now i ≡ Some (kind, name) → IsLawfulName kind name }
    ensures { IfOk result (λ yes. IsTrue yes ↔ AreRightTexts names.now (listed (value (rules_of grammar.now.rules)) []) texts.now.texts) }
{
    let mut steps: Steps<L> = Steps::new(blank);
    let lists = list_texts(alloc, grammar, names, &mut steps)?;
    let mut levels = first_levels(alloc, lists.as_slice(), grammar.rules() - 1)?;
    let mut attributes = Attributes::new(alloc, names.len())?;
    let count = texts.len();
    let mut at = 0;
    'marks: while let Some(mark) = next_mark(lists.as_slice(), &mut levels)? {
        if !attributes.admit(names, mark, at) {
            return Ok(false);
        }
        if let Mark::Valued(symbol) = mark {
            if !is_text_at(names, symbol, texts, at) {
                return Ok(false);
            }
            at += 1;
        }
    }
    Ok(at == count)
}

// Whether the list has a text at a place, and a lawful one for nodes of a symbol.
fn is_text_at(names: &Names, symbol: usize, texts: &TextList, at: u64) -> bool
    requires { (i : ℕ) (kind : Kind) (name : List ℕ) → slice_get names.now i ≡ Some (kind, name) → IsLawfulName kind name }
    ensures yes { result ≡ true → (text : List ℕ) × (slice_get texts.now.texts at ≡ Some text) × IsTextOf (slice_get names.now symbol) text }
    ensures no { result ≡ false → (text : List ℕ) → slice_get texts.now.texts at ≡ Some text → IsTextOf (slice_get names.now symbol) text → ⊥ }
{
    match (names.at(symbol), texts.get(at)) {
        (Some((kind, name)), Some(text)) => lawful(kind, name, text),
        _ => false,
    }
}
