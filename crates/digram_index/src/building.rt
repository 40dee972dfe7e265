// An index that is built from a whole grammar.
ghost use Rattle.std.specs.Prelude.{◌≡◌, ◌≢◌, ◌+◌, ◌<◌, ◌≤◌, ◌⊎◌, ℕ, length, Some, None, OnOk, IfOk, IsOk, false};
ghost use Rattle.slt_grammar.specs.Grammars.{whole};
ghost use Rattle.slt_grammar.specs.Keyed.{key_at, nodes_at, rules_of};
ghost use Rattle.rule_arena.specs.declared.key.Key.{Key};
ghost use Rattle.digram_index.specs.Digrams.{occurrence_at};
ghost use Rattle.digram_index.specs.Linked.{IsIndexOf, cell, is_marked};
ghost use Rattle.digram_index.specs.Building.{IsNumberIn};
ghost use Rattle.digram_index.specs.Marking.{MarksFewer};

use crate::index::Index;
use crate::nodes::{following, is_lower, unlink_node};
use read_steps::Steps;
use slt_grammar::{Grammar, Key};
use std::alloc::{AllocError, Global};
use std::marker::Brand;
use std::sync::ledger::{Blank, Ledger};

// How many digrams an index has room for when it is begun, or for one for each node where these are fewer. Lists that grow from nothing leave
// holes behind, which weigh in a small store.
const FIRST_ROOM: usize = 1024;

/// The index of a grammar.
pub fn build(alloc: Global, grammar: &Grammar) -> Result<Index, AllocError>
    ensures index { IfOk result (λ a. IsIndexOf grammar.now a) }
    ensures unmarked { IfOk result (λ a. (k : ℕ) → is_marked a k ≡ false) }
{
    let _limit = grammar.limit();
    let mut index = Index::new(alloc, grammar.rules())?;
    index.reserve(grammar, grammar.limit().min(FIRST_ROOM), 0)?;
    link_all(&mut index, grammar)?;
    index.forget_touched();
    Ok(index)
}

/// Links the nodes of all rules, where none is linked. With room for as many occurrences as there are nodes, it succeeds.
pub fn link_all(index: &mut Index, grammar: &Grammar) -> Result<(), AllocError>
    requires rules { index.old.rules ≡ length grammar.now.rules }
    requires free { (k : ℕ) → cell index.old k ≡ None }
    ensures linked { OnOk result (IsIndexOf grammar.now index.new) }
    ensures rules { index.new.rules ≡ index.old.rules }
    ensures room { length index.old.cells ≤ length index.new.cells }
    ensures succeeds { whole (rules_of grammar.now.rules) ≤ index.old.spare_links → grammar.now.limit ≤ length index.old.cells → IsOk result }
    ensures marks { MarksFewer index.old index.new }
{
    let _limit = grammar.limit();
    for rule in 0..grammar.rules() {
        link_nodes::<Brand>(index, grammar, rule, Blank::new(1))?;
    }
    Ok(())
}

/// Takes all occurrences of the grammar away. It takes no memory.
pub fn unlink_all(index: &mut Index, grammar: &Grammar)
    requires { IsIndexOf grammar.now index.old }
    ensures free { (k : ℕ) → cell index.new k ≡ None }
    ensures rules { index.new.rules ≡ index.old.rules }
    ensures room { length index.new.cells ≡ length index.old.cells }
    ensures spares { (index.new.spare_links ≡ index.old.spare_links) × (index.new.spare_rules ≡ index.old.spare_rules) }
    ensures marks { MarksFewer index.old index.new }
{
    let _limit = grammar.limit();
    for rule in 0..grammar.rules() {
        unlink_nodes::<Brand>(index, grammar, rule, Blank::new(1));
    }
}

// Links a node where it is the lower node of an occurrence.
fn link_node<L: Ledger>(
    index: &mut Index,
    grammar: &Grammar,
    key: Key,
    steps: &mut Steps<L>,
) -> Result<(), AllocError>
    requires rules { index.old.rules ≡ length grammar.now.rules }
    requires there { (r : ℕ) × (p : ℕ) × (key_at grammar.now.rules r p ≡ Some key) }
    requires free { cell index.old key.number ≡ None }
    ensures linked { OnOk result ((r p : ℕ) → key_at grammar.now.rules r p ≡ Some key → cell index.new key.number ≡ occurrence_at grammar.now.rules r p) }
    ensures others { (k : ℕ) → k ≢ key.number → cell index.new k ≡ cell index.old k }
    ensures rules { index.new.rules ≡ index.old.rules }
    ensures room { length index.old.cells ≤ length index.new.cells }
    ensures spare { (index.old.spare_links ≤ index.new.spare_links + 1) × (index.new.spare_rules ≡ index.old.spare_rules) }
    ensures succeeds { 0 < index.old.spare_links → key.number < length index.old.cells → IsOk result }
    ensures step { steps.new ≡ steps.old + 1 }
    ensures marks { MarksFewer index.old index.new }
{
    let _limit = grammar.limit();
    steps.tick();
    if is_lower(grammar, key) {
        index.link(grammar, key)?;
    }
    Ok(())
}

/// Links the nodes of a rule.
pub fn link_nodes<L: Ledger>(
    index: &mut Index,
    grammar: &Grammar,
    rule: usize,
    blank: Blank,
) -> Result<(), AllocError>
    requires rules { index.old.rules ≡ length grammar.now.rules }
    requires there { rule < length grammar.now.rules }
    requires free { (p : ℕ) (key : Key) → key_at grammar.now.rules rule p ≡ Some key → cell index.old key.number ≡ None }
    requires name { blank.name ≡ L.name }
    requires parts { blank.parts ≡ L.parts }
    requires some { 0 < blank.parts }
    ensures linked { OnOk result ((p : ℕ) (key : Key) → key_at grammar.now.rules rule p ≡ Some key → cell index.new key.number ≡ occurrence_at grammar.now.rules rule p) }
    ensures others { (k : ℕ) → (IsNumberIn grammar.now.rules rule k → ⊥) → cell index.new k ≡ cell index.old k }
    ensures only { OnOk result ((k : ℕ) → cell index.new k ≢ None → (cell index.old k ≢ None) ⊎ IsNumberIn grammar.now.rules rule k) }
    ensures rules { index.new.rules ≡ index.old.rules }
    ensures room { length index.old.cells ≤ length index.new.cells }
    ensures spare { (index.old.spare_links ≤ index.new.spare_links + length (nodes_at grammar.now.rules rule)) × (index.new.spare_rules ≡ index.old.spare_rules) }
    ensures succeeds { length (nodes_at grammar.now.rules rule) ≤ index.old.spare_links → grammar.now.limit ≤ length index.old.cells → IsOk result }
    ensures marks { MarksFewer index.old index.new }
{
    let _limit = grammar.limit();
    let mut steps: Steps<L> = Steps::new(blank);
    let mut next = Some(grammar.root(rule));
    while let Some(key) = next {
        link_node(index, grammar, key, &mut steps)?;
        next = following(grammar, key);
    }
    Ok(())
}

/// Takes away the occurrences of a rule's nodes. It takes no memory.
pub fn unlink_nodes<L: Ledger>(index: &mut Index, grammar: &Grammar, rule: usize, blank: Blank)
    requires there { rule < length grammar.now.rules }
    requires name { blank.name ≡ L.name }
    requires parts { blank.parts ≡ L.parts }
    requires some { 0 < blank.parts }
    ensures free { (p : ℕ) (key : Key) → key_at grammar.now.rules rule p ≡ Some key → cell index.new key.number ≡ None }
    ensures others { (k : ℕ) → (IsNumberIn grammar.now.rules rule k → ⊥) → cell index.new k ≡ cell index.old k }
    ensures rules { index.new.rules ≡ index.old.rules }
    ensures room { length index.new.cells ≡ length index.old.cells }
    ensures spares { (index.new.spare_links ≡ index.old.spare_links) × (index.new.spare_rules ≡ index.old.spare_rules) }
    ensures marks { MarksFewer index.old index.new }
{
    let _limit = grammar.limit();
    let mut steps: Steps<L> = Steps::new(blank);
    let mut next = Some(grammar.root(rule));
    while let Some(key) = next {
        steps.tick();
        unlink_node(index, key);
        next = following(grammar, key);
    }
}
