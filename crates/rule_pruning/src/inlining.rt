// The calls of a rule are replaced by its body.
ghost use Rattle.std.specs.Prelude.{◌≡◌, ◌≢◌, ◌+◌, ◌*◌, ◌<◌, ◌≤◌, ℕ, length};
ghost use Rattle.rule_arena.specs.declared.key.Key.{Key};
ghost use Rattle.slt_grammar.specs.Algebras.{ranks_of};
ghost use Rattle.slt_grammar.specs.Bodies.{calls_in, real_nodes};
ghost use Rattle.slt_grammar.specs.Grammars.{body_at, calls_of, size, value_at};
ghost use Rattle.slt_grammar.specs.Keyed.{nodes_at, rules_of};
ghost use Rattle.slt_grammar.specs.KeyedEdits.{IsInlined, StandsAsCall};
ghost use Rattle.digram_index.specs.Linked.{IsIndexOf};
ghost use Rattle.digram_index.specs.Marking.{KeepsMarked};
ghost use Rattle.rule_pruning.specs.Calls.{StandsAsCallOf};

use crate::call_search::{CallSearch, find_call};
use digram_index::{Index, inline_linked};
use slt_grammar::{Grammar, Key};

// Replaces all calls of a rule by its body. It takes no memory.
pub(crate) fn inline_calls(grammar: &mut Grammar, index: &mut Index, rule: usize)
    requires there { rule < length grammar.old.rules }
    requires index { IsIndexOf grammar.old index.old }
    requires nodes { calls_of (rules_of grammar.old.rules) rule * length (nodes_at grammar.old.rules rule) ≤ grammar.old.spare_nodes }
    requires links { calls_of (rules_of grammar.old.rules) rule * length (nodes_at grammar.old.rules rule) ≤ index.old.spare_links }
    requires cells { grammar.old.limit ≤ length index.old.cells }
    ensures rules { length grammar.new.rules ≡ length grammar.old.rules }
    ensures ranks { ranks_of (rules_of grammar.new.rules) ≡ ranks_of (rules_of grammar.old.rules) }
    ensures uncalled { calls_of (rules_of grammar.new.rules) rule ≡ 0 }
    ensures before { (r : ℕ) → r ≤ rule → nodes_at grammar.new.rules r ≡ nodes_at grammar.old.rules r }
    ensures called { (q : ℕ) → q ≢ rule → calls_of (rules_of grammar.new.rules) q
        ≡ calls_of (rules_of grammar.old.rules) q + calls_of (rules_of grammar.old.rules) rule * calls_in q (body_at (rules_of grammar.old.rules) rule) }
    ensures values { (r : ℕ) → value_at (rules_of grammar.new.rules) r ≡ value_at (rules_of grammar.old.rules) r }
    ensures size { size (rules_of grammar.new.rules) + calls_of (rules_of grammar.old.rules) rule
        ≡ size (rules_of grammar.old.rules) + calls_of (rules_of grammar.old.rules) rule * real_nodes (body_at (rules_of grammar.old.rules) rule) }
    ensures index { IsIndexOf grammar.new index.new }
    ensures marks { KeepsMarked grammar.old.rules index.old grammar.new.rules index.new }
{
    let mut search = CallSearch::new(grammar);
    for _ in 0..grammar.calls(rule) {
        // The call tells that a key stands once.
        let _limit = grammar.limit();
        let call = find_call(grammar, index, rule, &mut search);
        inline_call(grammar, index, rule, call);
    }
}

// Replaces one call of a rule by its body, and links anew what is near. It takes no memory.
fn inline_call(grammar: &mut Grammar, index: &mut Index, rule: usize, call: Key)
    requires there { rule < length grammar.old.rules }
    requires call { StandsAsCallOf grammar.old.rules rule call }
    requires index { IsIndexOf grammar.old index.old }
    requires nodes { length (nodes_at grammar.old.rules rule) ≤ grammar.old.spare_nodes }
    requires links { length (nodes_at grammar.old.rules rule) ≤ index.old.spare_links }
    requires cells { grammar.old.limit ≤ length index.old.cells }
    ensures inlined { (C : StandsAsCall grammar.old.rules call) → (follow : Key) × ((moved : Key)
        × IsInlined grammar.old.rules grammar.new.rules C.here.rule C.here.place C.called follow moved) }
    ensures values { (r : ℕ) → value_at (rules_of grammar.new.rules) r ≡ value_at (rules_of grammar.old.rules) r }
    ensures size { size (rules_of grammar.new.rules) + 1 ≡ size (rules_of grammar.old.rules) + real_nodes (body_at (rules_of grammar.old.rules) rule) }
    ensures index { IsIndexOf grammar.new index.new }
    ensures nodes { grammar.old.spare_nodes ≤ grammar.new.spare_nodes + length (nodes_at grammar.old.rules rule) }
    ensures links { index.old.spare_links ≤ index.new.spare_links + length (nodes_at grammar.old.rules rule) }
    ensures cells { grammar.new.limit ≤ length index.new.cells }
    ensures marks { KeepsMarked grammar.old.rules index.old grammar.new.rules index.new }
{
    // The call tells that a key stands once.
    let _limit = grammar.limit();
    inline_linked(grammar, index, call, call);
}
