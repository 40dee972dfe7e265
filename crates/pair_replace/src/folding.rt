// A fold of one occurrence, over a kept index.
ghost use Rattle.std.specs.Prelude.{◌≡◌, ◌+◌, ◌≤◌, ℕ, Some, length};
ghost use Rattle.rule_arena.specs.Terms.{kids_in};
ghost use Rattle.rule_arena.specs.declared.label.Label.TheVariants.{Call};
ghost use Rattle.slt_grammar.specs.Grammars.{size, value_at};
ghost use Rattle.slt_grammar.specs.Keyed.{key_at, nodes_at, rules_of};
ghost use Rattle.slt_grammar.specs.KeyedEdits.{FoldsInto, folded_nodes, with_nodes};
ghost use Rattle.digram_index.specs.Linked.{cell};
ghost use Rattle.digram_index.specs.Keeping.{IsIndexBut};
ghost use Rattle.digram_index.specs.Marking.{KeepsMarked};
ghost use Rattle.pair_replace.specs.Near.{IsAround};

use crate::near::{link_near, near_nodes, unlink_near};
use digram_index::Index;
use slt_grammar::{Grammar, Key};

// Folds a node and its parent into a call of a rule, and links anew what is near. One node of the rule stays unlinked. It takes no
// memory where there is room for 17 occurrences.
pub(crate) fn fold_at(grammar: &mut Grammar, index: &mut Index, lower: Key, rule: usize, apart: Key)
    requires fold { FoldsInto grammar.old.rules lower rule }
    requires apart { (p : ℕ) × (key_at grammar.old.rules rule p ≡ Some apart) }
    requires index { IsIndexBut grammar.old index.old (λ k. k ≡ apart.number) }
    requires room { 17 ≤ index.old.spare_links }
    requires cells { grammar.old.limit ≤ length index.old.cells }
    ensures rules { (F : FoldsInto grammar.old.rules lower rule) → grammar.new.rules ≡ with_nodes grammar.old.rules F.here.rule
        (folded_nodes (nodes_at grammar.old.rules F.here.rule) F.place F.upper F.here.place (Call rule)) }
    ensures index { IsIndexBut grammar.new index.new (λ k. k ≡ apart.number) }
    ensures others { (F : FoldsInto grammar.old.rules lower rule) (n : ℕ) → (IsAround F.upper (kids_in (nodes_at grammar.old.rules F.here.rule) F.place)
        (kids_in (nodes_at grammar.old.rules F.here.rule) F.here.place) n → ⊥) → cell index.new n ≡ cell index.old n }
    ensures values { (r : ℕ) → value_at (rules_of grammar.new.rules) r ≡ value_at (rules_of grammar.old.rules) r }
    ensures size { size (rules_of grammar.new.rules) + 1 ≡ size (rules_of grammar.old.rules) }
    ensures spare { index.old.spare_links ≤ index.new.spare_links + 17 }
    ensures cells { grammar.new.limit ≤ length index.new.cells }
    ensures marks { KeepsMarked grammar.old.rules index.old grammar.new.rules index.new }
{
    // The call tells that a key stands once.
    let _limit = grammar.limit();
    let near = near_nodes(grammar, lower);
    unlink_near(index, &near);
    // The call tells that the lower node isn't marked any more.
    let _marked = index.is_marked(lower);
    grammar.fold(lower, rule);
    link_near(index, grammar, &near);
}
