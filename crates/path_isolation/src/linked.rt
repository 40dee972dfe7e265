// The calls of a chain, inlined one after another while an index is kept.
ghost use Rattle.std.specs.Prelude.{◌≡◌, ◌≤◌, ◌+◌, ◌*◌, [], ◌∷◌, ℕ, List, length};
ghost use Rattle.slt_grammar.specs.Bodies.{real_nodes};
ghost use Rattle.slt_grammar.specs.ChangedValues.{start_body};
ghost use Rattle.slt_grammar.specs.Grammars.{size, value_at};
ghost use Rattle.slt_grammar.specs.Keyed.{KeyedRule, nodes_at, rules_of};
ghost use Rattle.slt_grammar.specs.Ways.{HaveSameRules};
ghost use Rattle.rule_arena.specs.declared.key.Key.{Key};
ghost use Rattle.slt_grammar.specs.declared.level.Level.{Level};
ghost use Rattle.start_fronts.specs.Before.{KeepsBefore};
ghost use Rattle.start_fronts.specs.Isolating.{KeepsButFirst};
ghost use Rattle.digram_index.specs.Linked.{IsIndexOf};
ghost use Rattle.path_isolation.specs.Chains.{IsChain};
ghost use Rattle.path_isolation.specs.Isolations.{DifferInStart, IsIsolated, IsSameInFront, Walk, calls_along, come_along, room_along};

use crate::isolation::first_key;
use digram_index::{Index, inline_linked};
use read_steps::Steps;
use slt_grammar::{Grammar, Key, Level, Way};
use std::sync::ledger::Ledger;

/// Makes the node to which the way leads a node of the start's body, and answers it, while an index is kept: what is linked anew is
/// near the inlined calls. Each call of the way is inlined once. There is room for the nodes of the bodies of the way's levels behind the
/// first, and for as many links, so it takes no memory.
pub fn isolate_linked<W: Way, L: Ledger>(
    grammar: &mut Grammar,
    index: &mut Index,
    mut way: W,
    steps: &mut Steps<L>,
) -> Key
    requires ready { W.ready way grammar.old.rules }
    requires chain { (ps : List ℕ) × IsChain grammar.old.rules (W.levels way grammar.old.rules) ps }
    requires index { IsIndexOf grammar.old index.old }
    requires room { room_along grammar.old.rules (W.levels way grammar.old.rules) ≤ grammar.old.spare_nodes }
    requires links { room_along grammar.old.rules (W.levels way grammar.old.rules) ≤ index.old.spare_links }
    requires cells { grammar.old.limit ≤ length index.old.cells }
    ensures others { DifferInStart grammar.old.rules grammar.new.rules }
    ensures values { (r : ℕ) → value_at (rules_of grammar.new.rules) r ≡ value_at (rules_of grammar.old.rules) r }
    ensures node { (ps : List ℕ) → IsChain grammar.old.rules (W.levels way grammar.old.rules) ps
        → IsIsolated grammar.old.rules grammar.new.rules (W.levels way grammar.old.rules) ps result }
    ensures front { (ps : List ℕ) → IsChain grammar.old.rules (W.levels way grammar.old.rules) ps → IsSameInFront grammar.old.rules grammar.new.rules ps result }
    ensures before { (l : Level) (ls : List Level) → W.levels way grammar.old.rules ≡ l ∷ ls → KeepsBefore (l.key ∷ []) grammar.old.rules grammar.new.rules }
    ensures size { size (rules_of grammar.new.rules) + calls_along (W.levels way grammar.old.rules)
        ≡ size (rules_of grammar.old.rules) + come_along grammar.old.rules (W.levels way grammar.old.rules) }
    ensures most { size (rules_of grammar.new.rules) + real_nodes (start_body (rules_of grammar.old.rules)) ≤ 2 * size (rules_of grammar.old.rules) }
    ensures index { IsIndexOf grammar.new index.new }
    ensures spare_nodes { grammar.old.spare_nodes ≤ grammar.new.spare_nodes + room_along grammar.old.rules (W.levels way grammar.old.rules) }
    ensures links { index.old.spare_links ≤ index.new.spare_links + room_along grammar.old.rules (W.levels way grammar.old.rules) }
    ensures numbers { index.new.spare_rules ≡ index.old.spare_rules }
    ensures spare_rules { grammar.new.spare_rules ≡ grammar.old.spare_rules }
    ensures limit { grammar.new.limit ≡ grammar.old.limit }
    ensures cells { length index.old.cells ≤ length index.new.cells }
    ensures steps { steps.new ≤ steps.old + W.most way grammar.old.rules }
{
    // The call tells that the rules are a grammar.
    let _limit = grammar.limit();
    let mut here = first_key(grammar, &mut way, steps);
    while let Some(level) = way.next(grammar, steps) {
        here = follow_linked(grammar, index, here, level);
    }
    here
}

// Inlines a call of the chain, links anew what is near, and answers where the next level's node is now. It takes no memory.
fn follow_linked(grammar: &mut Grammar, index: &mut Index, here: Key, level: Level) -> Key
    requires walk { (G : List KeyedRule) × (levels : List Level) × (qs : List ℕ) × (ls : List Level) × Walk G levels qs grammar.old.rules here (level ∷ ls) }
    requires index { IsIndexOf grammar.old index.old }
    requires room { length (nodes_at grammar.old.rules level.rule) ≤ grammar.old.spare_nodes }
    requires links { length (nodes_at grammar.old.rules level.rule) ≤ index.old.spare_links }
    requires cells { grammar.old.limit ≤ length index.old.cells }
    ensures walk { (G : List KeyedRule) (levels : List Level) (qs : List ℕ) (ls : List Level)
        → Walk G levels qs grammar.old.rules here (level ∷ ls) → Walk G levels qs grammar.new.rules result ls }
    ensures kept { (G : List KeyedRule) (levels : List Level) (qs : List ℕ) (ls : List Level)
        → Walk G levels qs grammar.old.rules here (level ∷ ls) → HaveSameRules ls grammar.old.rules grammar.new.rules }
    ensures before { (G : List KeyedRule) (first : Key) → KeepsButFirst G grammar.old.rules first here → KeepsButFirst G grammar.new.rules first result }
    ensures index { IsIndexOf grammar.new index.new }
    ensures spare_nodes { grammar.old.spare_nodes ≤ grammar.new.spare_nodes + length (nodes_at grammar.old.rules level.rule) }
    ensures links { index.old.spare_links ≤ index.new.spare_links + length (nodes_at grammar.old.rules level.rule) }
    ensures numbers { index.new.spare_rules ≡ index.old.spare_rules }
    ensures spare_rules { grammar.new.spare_rules ≡ grammar.old.spare_rules }
    ensures limit { grammar.new.limit ≡ grammar.old.limit }
    ensures cells { length index.old.cells ≤ length index.new.cells }
{
    // The calls tell that a key stands once, before and after.
    let _before = grammar.limit();
    let inlined = inline_linked(grammar, index, here, level.key);
    let _after = grammar.limit();
    inlined.followed
}
