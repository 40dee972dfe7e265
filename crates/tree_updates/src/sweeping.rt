// Rules that nobody calls any more.
ghost use Rattle.std.specs.Prelude.{◌≡◌, ◌≤◌, ℕ, List, [], length};
ghost use Rattle.plain_tree.specs.declared.kind.Kind.{Kind};
ghost use Rattle.plain_tree.specs.Tree.{Tree};
ghost use Rattle.slt_grammar.specs.Grammars.{size, value, IsSwept};
ghost use Rattle.slt_grammar.specs.Keyed.{rules_of};
ghost use Rattle.slt_grammar.specs.Ranks.{greatest_rank};
ghost use Rattle.start_fronts.specs.Before.{KeepsBefore};
ghost use Rattle.digram_index.specs.Linked.{IsIndexOf};
ghost use Rattle.segment_counts.specs.Counting.{AreCounts};
ghost use Rattle.preorder_address.specs.declared.marks.Mark.{Mark};
ghost use Rattle.preorder_address.specs.Marks.{AreMarks};
ghost use Rattle.preorder_address.specs.Numberings.{AreCountsOf};
ghost use Rattle.tree_updates.specs.Extents.{IsUnsweptFor};
ghost use Rattle.tree_updates.specs.Stores.{IsStoreFor};

use crate::store::Store;
use digram_index::{Index, drop_linked};
use segment_counts::Counts;
use slt_grammar::Grammar;

/// Drops all rules that the start doesn't reach, with their rows and their links. The others keep their order, and their nodes their keys.
/// It takes no memory.
pub fn sweep_uncalled(grammar: &mut Grammar, index: &mut Index, counts: &mut Counts)
    requires index { IsIndexOf grammar.old index.old }
    requires counts { AreCountsOf (rules_of grammar.old.rules) counts.old }
    ensures swept { IsSwept (rules_of grammar.new.rules) }
    ensures value { value (rules_of grammar.new.rules) ≡ value (rules_of grammar.old.rules) }
    ensures size { size (rules_of grammar.new.rules) ≤ size (rules_of grammar.old.rules) }
    ensures ranks { greatest_rank (rules_of grammar.new.rules) ≤ greatest_rank (rules_of grammar.old.rules) }
    ensures rules { length grammar.new.rules ≤ length grammar.old.rules }
    ensures index { IsIndexOf grammar.new index.new }
    ensures counts { (names : List (Kind × List ℕ)) → AreCounts names (rules_of grammar.old.rules) counts.old → AreCounts names (rules_of grammar.new.rules) counts.new }
    ensures spare_nodes { grammar.old.spare_nodes ≤ grammar.new.spare_nodes }
    ensures spare_rules { grammar.old.spare_rules ≤ grammar.new.spare_rules }
    ensures limit { grammar.new.limit ≡ grammar.old.limit }
    ensures links { index.new.spare_links ≡ index.old.spare_links }
    ensures numbers { index.old.spare_rules ≤ index.new.spare_rules }
    ensures cells { length index.new.cells ≡ length index.old.cells }
    ensures room { length counts.new.rows ≡ length counts.old.rows }
    ensures before { KeepsBefore [] grammar.old.rules grammar.new.rules }
    ensures marks { (names : List (Kind × List ℕ)) (marks : List Mark) → AreMarks names grammar.old.rules marks → AreMarks names grammar.new.rules marks }
{
    // A rule calls earlier ones alone: once it is looked at, no later rule loses a call any more.
    let last = grammar.rules() - 1;
    for rule in (0..last).rev() {
        // The call tells what is true of every grammar.
        let _limit = grammar.limit();
        if grammar.calls(rule) == 0 {
            drop_linked(grammar, index, rule);
            counts.remove_rule(rule);
        }
    }
}

// The same in a store.
pub(crate) fn sweep(store: &mut Store)
    requires store { (t : Tree) × IsUnsweptFor store.old t }
    ensures store { (t : Tree) → IsUnsweptFor store.old t → IsStoreFor store.new t }
    ensures names { store.new.names ≡ store.old.names }
    ensures size { size (rules_of store.new.grammar.rules) ≤ size (rules_of store.old.grammar.rules) }
    ensures ranks { greatest_rank (rules_of store.new.grammar.rules) ≤ greatest_rank (rules_of store.old.grammar.rules) }
    ensures value { value (rules_of store.new.grammar.rules) ≡ value (rules_of store.old.grammar.rules) }
    ensures before { KeepsBefore [] store.old.grammar.rules store.new.grammar.rules }
    ensures marks { (names : List (Kind × List ℕ)) (marks : List Mark) → AreMarks names store.old.grammar.rules marks → AreMarks names store.new.grammar.rules marks }
{
    sweep_uncalled(&mut store.grammar, &mut store.index, &mut store.counts);
}
