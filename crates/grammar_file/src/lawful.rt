// Whether rules, names and texts stand for a document, decided over the rules as they are.
ghost use Rattle.std.specs.Prelude.{◌≡◌, ◌<◌, ℕ, List, Some, true, false, slice_get, IfOk, IsTrue, ◌↔◌};
ghost use Rattle.plain_tree.specs.declared.kind.Kind.{Kind};
ghost use Rattle.plain_tree.specs.Tree.{Tree};
ghost use Rattle.plain_tree.specs.Lawful.{IsLawfulName};
ghost use Rattle.slt_grammar.specs.Grammars.{value};
ghost use Rattle.slt_grammar.specs.Keyed.{rules_of};
ghost use Rattle.slt_grammar.specs.Standing.{StandsFor};
ghost use Rattle.grammar_file.specs.Chains.{chain_of};

use crate::chains::{Chain, Chains};
use crate::texts_of::are_texts_of;
use plain_tree::{Kind, Names};
use read_steps::Steps;
use rule_runs::rise;
use slt_grammar::Grammar;
use std::alloc::{AllocError, Global};
use std::marker::Brand;
use std::sync::ledger::{Blank, Ledger};
use text_list::TextList;

/// Whether there is a document for which these rules stand with these names, each lawful for its kind, and texts.
///
/// Nothing is unfolded, so the document may have more nodes than can be counted. It fails only where memory is refused.
pub(crate) fn is_document(
    alloc: Global,
    grammar: &Grammar,
    names: &Names,
    texts: &TextList,
) -> Result<bool, AllocError>
    requires { (i : ℕ) (kind : Kind) (name : List ℕ) → slice_get names.now i ≡ Some (kind, name) → IsLawfulName kind name }
    ensures yes { IfOk result (λ yes. yes ≡ true → (t : Tree) × StandsFor (rules_of grammar.now.rules) names.now texts.now.texts t) }
    ensures no { IfOk result (λ yes. yes ≡ false → (t : Tree) → StandsFor (rules_of grammar.now.rules) names.now texts.now.texts t → ⊥) }
{
    // The calls tell that the rules are a grammar, and that no name stands twice.
    let _rules = grammar.rules();
    let _place = names.find(Kind::Document, b"");
    if codes_document(alloc, grammar, names)? {
        are_texts_of(alloc, grammar, names, texts)
    } else {
        Ok(false)
    }
}

// Whether the rules code one document that is lawful but for its values and for attributes of equal names.
fn codes_document(alloc: Global, grammar: &Grammar, names: &Names) -> Result<bool, AllocError>
    ensures { IfOk result (λ yes. IsTrue yes ↔ (chain_of names.now (value (rules_of grammar.now.rules)) ≡ Chain.Whole)) }
{
    runs_to_document::<Brand>(alloc, grammar, names, Blank::new(1))
}

// The same, with a counter of the ledger `L` for the reads of nodes.
fn runs_to_document<L: Ledger>(
    alloc: Global,
    grammar: &Grammar,
    names: &Names,
    blank: Blank,
) -> Result<bool, AllocError>
    requires name { blank.name ≡ L.name }
    requires parts { blank.parts ≡ L.parts }
    requires some { 0 < blank.parts }
    ensures { IfOk result (λ yes. IsTrue yes ↔ (chain_of names.now (value (rules_of grammar.now.rules)) ≡ Chain.Whole)) }
{
    let mut steps: Steps<L> = Steps::new(blank);
    let chains = Chains::new(alloc, names)?;
    let risen = rise(alloc, grammar, &chains, false, &mut steps)?;
    Ok(matches!(risen.top(), Chain::Whole))
}
