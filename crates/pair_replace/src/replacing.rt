// Replacement of a digram.
ghost use Rattle.std.specs.Prelude.{◌≡◌, ◌≢◌, ◌+◌, ◌<◌, ◌≤◌, ℕ, List, [], ◌∷◌, IfOk, OnOk, OnErr, length, max};
ghost use Rattle.slt_grammar.specs.Algebras.{ranks_of};
ghost use Rattle.slt_grammar.specs.Bodies.{calls_in};
ghost use Rattle.slt_grammar.specs.Editing.{shifted};
ghost use Rattle.slt_grammar.specs.Grammars.{calls_of, size, value, value_at, IsSwept};
ghost use Rattle.slt_grammar.specs.Digrams.{HasThreeDisjoint, Occurrence, Occurs, digram_rank};
ghost use Rattle.slt_grammar.specs.Keyed.{Keyed, rules_of};
ghost use Rattle.slt_grammar.specs.Ranks.{greatest_rank};
ghost use Rattle.digram_index.specs.Keeping.{IsIndexBut};
ghost use Rattle.digram_index.specs.Linked.{IsIndexOf, cell, cell_count};
ghost use Rattle.digram_index.specs.Marking.{KeepsMarked, MarksFewer};
ghost use Rattle.digram_index.specs.Settled.{HasTwoDisjoint};
ghost use Rattle.pair_replace.specs.Chains.{HasApartLinked, HasNoMoreApart, IsHead, IsLinkedAs, LeavesApart};
ghost use Rattle.pair_replace.specs.Turns.{IsRound, IsTurn};
ghost use Rattle.pair_replace.specs.NewRules.{IsNewRule, IsRuleOf};
ghost use Rattle.pair_replace.specs.Disjoint.{OccurDisjoint};

use crate::folding::fold_at;
use crate::new_rule::{NewRule, add_new_rule};
use crate::occurrences::{further, next_occurrence};
use digram_index::{Index, link_node};
use slt_grammar::{Digram, Grammar, Key};
use std::alloc::{AllocError, Global};

/// What a replacement did.
#[derive(Clone, Copy, Drop)]
pub struct Replaced {
    /// How many occurrences were folded into calls.
    pub count: u64,
    /// The place of the new rule.
    pub rule: usize,
}

// How many occurrences are linked anew after a fold.
const NEAR: usize = 17;

/// Makes a rule of a digram of which two occurrences share no node, and whose rank is at most 8: its body is the digram over parameters.
/// Folds occurrences into calls of it, until the digram stands in the new rule alone: as many as share no node, and where its labels
/// differ, all. The value of each rule stays. It fails where memory is refused: the value stays then too, neither the size nor the size
/// and the rules together are larger, and the index is the grammar's.
pub fn replace(
    alloc: Global,
    grammar: &mut Grammar,
    index: &mut Index,
    digram: Digram,
) -> Result<Replaced, AllocError>
    requires index { IsIndexOf grammar.old index.old }
    requires two { HasTwoDisjoint (rules_of grammar.old.rules) digram }
    requires rank { digram_rank (rules_of grammar.old.rules) digram ≤ 8 }
    ensures index { IsIndexOf grammar.new index.new }
    ensures value { value (rules_of grammar.new.rules) ≡ value (rules_of grammar.old.rules) }
    ensures rules { OnOk result (length grammar.new.rules ≡ length grammar.old.rules + 1) }
    ensures body { IfOk result (λ r. IsRuleOf (rules_of grammar.old.rules) (rules_of grammar.new.rules) digram r.rule) }
    ensures ranks { greatest_rank (rules_of grammar.new.rules) ≤ max (digram_rank (rules_of grammar.old.rules) digram) (greatest_rank (rules_of grammar.old.rules)) }
    ensures only { IfOk result (λ r. (o : Occurrence) → Occurs (rules_of grammar.new.rules) digram o → o.rule ≡ r.rule) }
    ensures most { IfOk result (λ r. (os : List Occurrence) → OccurDisjoint (rules_of grammar.old.rules) digram os → length os ≤ r.count) }
    ensures count { IfOk result (λ r. 2 ≤ r.count) }
    ensures three { HasThreeDisjoint (rules_of grammar.old.rules) digram → IfOk result (λ r. 3 ≤ r.count) }
    ensures size { IfOk result (λ r. size (rules_of grammar.new.rules) + r.count ≡ size (rules_of grammar.old.rules) + 2) }
    ensures refused { OnErr result (size (rules_of grammar.new.rules) ≤ size (rules_of grammar.old.rules)) }
    ensures refused_rules { OnErr result (size (rules_of grammar.new.rules) + length grammar.new.rules ≤ size (rules_of grammar.old.rules) + length grammar.old.rules) }
    ensures place { IfOk result (λ r. r.rule < length grammar.old.rules) }
    ensures values { IfOk result (λ r. (q : ℕ) → q < length grammar.old.rules → value_at (rules_of grammar.new.rules) (shifted r.rule q) ≡ value_at (rules_of grammar.old.rules) q) }
    ensures differ { IfOk result (λ r. digram.upper ≢ digram.lower → r.count ≡ cell_count digram index.old.cells) }
    ensures swept { IsSwept (rules_of grammar.old.rules) → IsSwept (rules_of grammar.new.rules) }
    ensures marks { KeepsMarked grammar.old.rules index.old grammar.new.rules index.new }
{
    // The calls tell that a key stands once, before and after.
    let _limit = grammar.limit();
    let new = add_new_rule(alloc, grammar, index, digram, 3 * NEAR + 1)?;
    let count = fold_all(grammar, index, digram, &new);
    let _folded = grammar.limit();
    link_node(index, grammar, new.lower);
    Ok(Replaced {
        count: count?,
        rule: new.place,
    })
}

// Folds all occurrences that share no node. There is room for the first three, so that memory is not refused before these are folded.
fn fold_all(
    grammar: &mut Grammar,
    index: &mut Index,
    digram: Digram,
    new: &NewRule,
) -> Result<u64, AllocError>
    requires index { IsIndexBut grammar.old index.old (λ k. k ≡ new.now.lower.number) }
    requires new { IsNewRule grammar.old.rules digram new.now.place new.now.lower }
    requires two { HasApartLinked index.old digram 2 }
    requires room { 52 ≤ index.old.spare_links }
    requires cells { grammar.old.limit ≤ length index.old.cells }
    ensures index { IsIndexBut grammar.new index.new (λ k. k ≡ new.now.lower.number) }
    ensures new { IsNewRule grammar.new.rules digram new.now.place new.now.lower }
    ensures values { (r : ℕ) → value_at (rules_of grammar.new.rules) r ≡ value_at (rules_of grammar.old.rules) r }
    ensures rules { length grammar.new.rules ≡ length grammar.old.rules }
    ensures ranks { ranks_of (rules_of grammar.new.rules) ≡ ranks_of (rules_of grammar.old.rules) }
    ensures count { IfOk result (λ count. HasNoMoreApart index.old digram count) }
    ensures none { OnOk result ((k : ℕ) → IsLinkedAs index.new digram k → ⊥) }
    ensures size { IfOk result (λ count. size (rules_of grammar.new.rules) + count ≡ size (rules_of grammar.old.rules)) }
    ensures calls { (r : ℕ) → calls_in r (digram.upper ∷ digram.lower ∷ []) ≡ 0 → calls_of (rules_of grammar.old.rules) r ≤ calls_of (rules_of grammar.new.rules) r }
    ensures called { 2 ≤ calls_of (rules_of grammar.new.rules) new.now.place }
    ensures differ { IfOk result (λ count. digram.upper ≢ digram.lower → count ≡ cell_count digram index.old.cells) }
    ensures refused { OnErr result (size (rules_of grammar.new.rules) + 3 ≤ size (rules_of grammar.old.rules)) }
    ensures room { 1 ≤ index.new.spare_links }
    ensures cells { grammar.new.limit ≤ length index.new.cells }
    ensures marks { KeepsMarked grammar.old.rules index.old grammar.new.rules index.new }
{
    // The call tells that the count fits.
    let _size = grammar.size();
    let mut count: u64 = 0;
    let mut next = next_occurrence(grammar, index, digram, None);
    while let Some(lower) = next {
        next = fold_next(grammar, index, digram, new, lower, count)?;
        count += 1;
    }
    Ok(count)
}

// Folds an occurrence after so many others, and answers the next one.
fn fold_next(
    grammar: &mut Grammar,
    index: &mut Index,
    digram: Digram,
    new: &NewRule,
    lower: Key,
    count: u64,
) -> Result<Option<Key>, AllocError>
    requires round { (first : Keyed) × IsRound grammar.old index.old digram new.now.place new.now.lower first count }
    requires head { IsHead index.old digram lower.number }
    ensures turn { IfOk result (λ next. IsTurn index.new digram next) }
    ensures round { OnOk result ((first : Keyed) → IsRound grammar.old index.old digram new.now.place new.now.lower first count → IsRound grammar.new index.new digram new.now.place new.now.lower first (count + 1)) }
    ensures refused { OnErr result ((first : Keyed) → IsRound grammar.old index.old digram new.now.place new.now.lower first count → IsRound grammar.new index.new digram new.now.place new.now.lower first count) }
    ensures three { OnErr result (3 ≤ count) }
    ensures less { OnOk result (size (rules_of grammar.new.rules) + 1 ≡ size (rules_of grammar.old.rules)) }
    ensures apart { OnOk result (LeavesApart index.old index.new digram 1) }
    ensures fewer { OnOk result (digram.upper ≢ digram.lower → cell_count digram index.new.cells + 1 ≡ cell_count digram index.old.cells) }
    ensures marks { KeepsMarked grammar.old.rules index.old grammar.new.rules index.new }
{
    // The calls tell that a key stands once.
    let _limit = grammar.limit();
    make_room(grammar, index, count)?;
    let hint = further(grammar, digram, lower);
    fold_at(grammar, index, lower, new.place, new.lower);
    let _folded = grammar.limit();
    Ok(next_occurrence(grammar, index, digram, hint))
}

// Makes room for the next fold, where the first three are done.
fn make_room(grammar: &Grammar, index: &mut Index, count: u64) -> Result<(), AllocError>
    ensures rules { index.new.rules ≡ index.old.rules }
    ensures cells { (k : ℕ) → cell index.new k ≡ cell index.old k }
    ensures more { length index.old.cells ≤ length index.new.cells }
    ensures spares { index.old.spare_links ≤ index.new.spare_links }
    ensures room { OnOk result (3 ≤ count → 18 ≤ index.new.spare_links) }
    ensures refused { OnErr result (3 ≤ count) }
    ensures marks { MarksFewer index.old index.new }
{
    if count < 3 {
        return Ok(());
    }
    index.reserve(grammar, NEAR + 1, 0)
}
