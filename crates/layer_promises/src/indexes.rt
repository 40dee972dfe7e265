// Where digrams occur, as digram_index promises it.
ghost use Rattle.std.specs.Prelude.{◌≡◌, ℕ, IfOk, false, ◌≤◌, IfSome, IfNone, ◌<◌, ◌+◌, length};
ghost use Rattle.slt_grammar.specs.Bodies.{real_nodes};
ghost use Rattle.slt_grammar.specs.Digrams.{digram_rank, HasThreeDisjoint};
ghost use Rattle.slt_grammar.specs.Grammars.{body_at, size, value_at};
ghost use Rattle.slt_grammar.specs.Keyed.{rules_of, nodes_at};
ghost use Rattle.slt_grammar.specs.KeyedEdits.{IsInlined, StandsAsCall};
ghost use Rattle.slt_grammar.specs.declared.digram.Digram.{Digram};
ghost use Rattle.digram_index.specs.Frequency.{IsMostFrequent};
ghost use Rattle.digram_index.specs.Linked.{IsIndexOf, is_marked, IsCallLinked};

use digram_index::{Digram, FoundCall, Index, build, inline_linked};
use rule_arena::Key;
use slt_grammar::{Grammar, Inlined};
use std::alloc::{AllocError, Global};

/// The index of a grammar, in which nothing is marked.
pub fn build_told(alloc: Global, grammar: &Grammar) -> Result<Index, AllocError>
    ensures index { IfOk result (λ a. IsIndexOf grammar.now a) }
    ensures unmarked { IfOk result (λ a. (k : ℕ) → is_marked a k ≡ false) }
{
    build(alloc, grammar)
}

/// A most frequent digram of a rank within the bound with three occurrences that share no node, and None where there is none.
pub fn top_told(index: &Index, grammar: &Grammar, bound: usize) -> Option<Digram>
    requires index { IsIndexOf grammar.now index.now }
    requires bound { bound ≤ 8 }
    ensures within { IfSome result (λ d. digram_rank (rules_of grammar.now.rules) d ≤ bound) }
    ensures three { IfSome result (λ d. HasThreeDisjoint (rules_of grammar.now.rules) d) }
    ensures none { IfNone result ((d : Digram) → digram_rank (rules_of grammar.now.rules) d ≤ bound → HasThreeDisjoint (rules_of grammar.now.rules) d → ⊥) }
    ensures most { IfSome result (λ d. IsMostFrequent (rules_of grammar.now.rules) index.now bound d) }
{
    index.top(grammar, bound)
}

/// A call of a rule that is linked, and None where there is none.
pub fn call_of_told(index: &Index, rule: usize, hint: usize) -> Option<FoundCall>
    requires { rule < index.now.rules }
    ensures some { IfSome result (λ found. IsCallLinked index.now rule found.key.number) }
    ensures none { IfNone result ((k : ℕ) → IsCallLinked index.now rule k → ⊥) }
{
    index.call_of(rule, hint)
}

/// A call gives way to the body of its rule, and the index is the grammar's again.
pub fn inline_linked_told(
    grammar: &mut Grammar,
    index: &mut Index,
    call: Key,
    follow: Key,
) -> Inlined
    requires call { StandsAsCall grammar.old.rules call }
    requires index { IsIndexOf grammar.old index.old }
    requires nodes { (C : StandsAsCall grammar.old.rules call) → length (nodes_at grammar.old.rules C.called) ≤ grammar.old.spare_nodes }
    requires links { (C : StandsAsCall grammar.old.rules call) → length (nodes_at grammar.old.rules C.called) ≤ index.old.spare_links }
    requires cells { grammar.old.limit ≤ length index.old.cells }
    ensures rules { (C : StandsAsCall grammar.old.rules call)
        → IsInlined grammar.old.rules grammar.new.rules C.here.rule C.here.place C.called follow result.followed }
    ensures values { (r : ℕ) → value_at (rules_of grammar.new.rules) r ≡ value_at (rules_of grammar.old.rules) r }
    ensures size { (C : StandsAsCall grammar.old.rules call)
        → size (rules_of grammar.new.rules) + 1 ≡ size (rules_of grammar.old.rules) + real_nodes (body_at (rules_of grammar.old.rules) C.called) }
    ensures index { IsIndexOf grammar.new index.new }
{
    inline_linked(grammar, index, call, follow)
}
