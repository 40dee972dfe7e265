// The rules that save no nodes are taken away.
ghost use Rattle.std.specs.Prelude.{◌≡◌, ◌+◌, ◌*◌, ◌<◌, ◌≤◌, ℕ, length, OnOk};
ghost use Rattle.slt_grammar.specs.Digrams.{Saves};
ghost use Rattle.slt_grammar.specs.Grammars.{calls_of, size, value, IsSwept};
ghost use Rattle.slt_grammar.specs.Keyed.{nodes_at, rules_of};
ghost use Rattle.slt_grammar.specs.Ranks.{greatest_rank};
ghost use Rattle.digram_index.specs.Linked.{IsIndexOf};
ghost use Rattle.digram_index.specs.Marking.{KeepsMarked, MarksFewer};
ghost use Rattle.rule_pruning.specs.Saving.{AllSave};

use crate::inlining::inline_calls;
use crate::savings::{all_save, body_length, saves};
use digram_index::{Index, drop_linked};
use slt_grammar::Grammar;
use std::alloc::{AllocError, Global};

/// Takes away the rules that save no nodes, and keeps the index. The value stays. A rule that is not called is dropped, and the body of
/// any other comes in the place of its calls; callees go first, since each makes the bodies of its callers larger. The nodes of rules
/// that stay keep their keys, but for the calls that give way.
///
/// It fails where memory is refused. Some rules may be gone then; the value is the same, and the index is the grammar's. Neither then nor
/// else is the greatest rank of a rule greater than before.
pub fn prune(_alloc: Global, grammar: &mut Grammar, index: &mut Index) -> Result<(), AllocError>
    requires { IsIndexOf grammar.old index.old }
    ensures swept { OnOk result (IsSwept (rules_of grammar.new.rules)) }
    ensures save { OnOk result (AllSave (rules_of grammar.new.rules)) }
    ensures value { value (rules_of grammar.new.rules) ≡ value (rules_of grammar.old.rules) }
    ensures size { size (rules_of grammar.new.rules) ≤ size (rules_of grammar.old.rules) }
    ensures rules { length grammar.new.rules ≤ length grammar.old.rules }
    ensures ranks { greatest_rank (rules_of grammar.new.rules) ≤ greatest_rank (rules_of grammar.old.rules) }
    ensures index { IsIndexOf grammar.new index.new }
    ensures stays { IsSwept (rules_of grammar.old.rules) → IsSwept (rules_of grammar.new.rules) }
    ensures marks { KeepsMarked grammar.old.rules index.old grammar.new.rules index.new }
{
    if all_save(grammar) {
        return Ok(());
    }
    sweep(grammar, index);
    prune_swept(grammar, index)
}

// Drops the rules that are not called. It takes no memory.
fn sweep(grammar: &mut Grammar, index: &mut Index)
    requires { IsIndexOf grammar.old index.old }
    ensures swept { IsSwept (rules_of grammar.new.rules) }
    ensures value { value (rules_of grammar.new.rules) ≡ value (rules_of grammar.old.rules) }
    ensures size { size (rules_of grammar.new.rules) ≤ size (rules_of grammar.old.rules) }
    ensures rules { length grammar.new.rules ≤ length grammar.old.rules }
    ensures ranks { greatest_rank (rules_of grammar.new.rules) ≤ greatest_rank (rules_of grammar.old.rules) }
    ensures index { IsIndexOf grammar.new index.new }
    ensures marks { KeepsMarked grammar.old.rules index.old grammar.new.rules index.new }
{
    // A rule calls earlier ones alone: once it is looked at, no later rule loses a call any more.
    let last = grammar.rules() - 1;
    for rule in (0..last).rev() {
        let _rules = grammar.rules();
        if grammar.calls(rule) == 0 {
            drop_linked(grammar, index, rule);
        }
    }
}

// Takes away the rules that save no nodes, where all rules are called.
fn prune_swept(grammar: &mut Grammar, index: &mut Index) -> Result<(), AllocError>
    requires index { IsIndexOf grammar.old index.old }
    requires swept { IsSwept (rules_of grammar.old.rules) }
    ensures swept { IsSwept (rules_of grammar.new.rules) }
    ensures save { OnOk result (AllSave (rules_of grammar.new.rules)) }
    ensures value { value (rules_of grammar.new.rules) ≡ value (rules_of grammar.old.rules) }
    ensures size { size (rules_of grammar.new.rules) ≤ size (rules_of grammar.old.rules) }
    ensures rules { length grammar.new.rules ≤ length grammar.old.rules }
    ensures ranks { greatest_rank (rules_of grammar.new.rules) ≤ greatest_rank (rules_of grammar.old.rules) }
    ensures index { IsIndexOf grammar.new index.new }
    ensures marks { KeepsMarked grammar.old.rules index.old grammar.new.rules index.new }
{
    // The rule whose turn it is, once those before it that saved nothing were taken away.
    let mut rule = 0;
    let last = grammar.rules() - 1;
    for _ in 0..last {
        if saves(grammar, rule) {
            rule += 1;
        } else {
            take_away(grammar, index, rule)?;
        }
    }
    Ok(())
}

// Takes away a rule. Where memory is refused, the rules stay.
pub(crate) fn take_away(
    grammar: &mut Grammar,
    index: &mut Index,
    rule: usize,
) -> Result<(), AllocError>
    requires there { rule + 1 < length grammar.old.rules }
    requires swept { IsSwept (rules_of grammar.old.rules) }
    requires index { IsIndexOf grammar.old index.old }
    ensures rules { OnOk result (length grammar.new.rules + 1 ≡ length grammar.old.rules) }
    ensures swept { IsSwept (rules_of grammar.new.rules) }
    ensures save { OnOk result ((r : ℕ) → r < rule → Saves (rules_of grammar.old.rules) r → Saves (rules_of grammar.new.rules) r) }
    ensures value { value (rules_of grammar.new.rules) ≡ value (rules_of grammar.old.rules) }
    ensures size { (Saves (rules_of grammar.old.rules) rule → ⊥) → size (rules_of grammar.new.rules) ≤ size (rules_of grammar.old.rules) }
    ensures fewer { length grammar.new.rules ≤ length grammar.old.rules }
    ensures ranks { greatest_rank (rules_of grammar.new.rules) ≤ greatest_rank (rules_of grammar.old.rules) }
    ensures index { IsIndexOf grammar.new index.new }
    ensures marks { KeepsMarked grammar.old.rules index.old grammar.new.rules index.new }
{
    make_room(grammar, index, rule)?;
    inline_calls(grammar, index, rule);
    // The call tells that a key stands once.
    let _inlined = grammar.limit();
    drop_linked(grammar, index, rule);
    Ok(())
}

// Makes room for a copy of a rule's body in the place of each of its calls, and for their occurrences.
fn make_room(grammar: &mut Grammar, index: &mut Index, rule: usize) -> Result<(), AllocError>
    requires there { rule < length grammar.old.rules }
    requires index { IsIndexOf grammar.old index.old }
    ensures rules { grammar.new.rules ≡ grammar.old.rules }
    ensures index { IsIndexOf grammar.new index.new }
    ensures nodes { OnOk result (calls_of (rules_of grammar.old.rules) rule * length (nodes_at grammar.old.rules rule) ≤ grammar.new.spare_nodes) }
    ensures links { OnOk result (calls_of (rules_of grammar.old.rules) rule * length (nodes_at grammar.old.rules rule) ≤ index.new.spare_links) }
    ensures cells { OnOk result (grammar.new.limit ≤ length index.new.cells) }
    ensures marks { MarksFewer index.old index.new }
{
    let copies = grammar.calls(rule) as usize;
    match copies.checked_mul(body_length(grammar, rule)) {
        Some(nodes) => {
            grammar.reserve(nodes, 0)?;
            index.reserve(grammar, nodes, 0)
        }
        None => Err(AllocError),
    }
}
