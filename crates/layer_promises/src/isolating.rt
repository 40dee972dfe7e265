// A node made one of the start's body, as path_isolation promises it.
ghost use Rattle.std.specs.Prelude.{◌≡◌, ◌≤◌, ◌+◌, ◌*◌, [], ◌∷◌, ℕ, List, length};
ghost use Rattle.slt_grammar.specs.Bodies.{real_nodes};
ghost use Rattle.slt_grammar.specs.ChangedValues.{start_body};
ghost use Rattle.slt_grammar.specs.Grammars.{size, value_at};
ghost use Rattle.slt_grammar.specs.Keyed.{rules_of};
ghost use Rattle.slt_grammar.specs.declared.level.Level.{Level};
ghost use Rattle.start_fronts.specs.Before.{KeepsBefore};
ghost use Rattle.digram_index.specs.Linked.{IsIndexOf};
ghost use Rattle.path_isolation.specs.Chains.{IsChain};
ghost use Rattle.path_isolation.specs.Isolations.{DifferInStart, IsIsolated, IsSameInFront, calls_along, come_along, room_along};

use digram_index::Index;
use path_isolation::isolate_linked;
use read_steps::Steps;
use rule_arena::Key;
use slt_grammar::{Grammar, Way};
use std::sync::ledger::Ledger;

/// A node of the value becomes one of the start's body: the calls of one way are inlined, each once.
pub fn isolate_linked_told<W: Way, L: Ledger>(
    grammar: &mut Grammar,
    index: &mut Index,
    way: W,
    steps: &mut Steps<L>,
) -> Key
    requires ready { W.ready way grammar.old.rules }
    requires chain { (ps : List ℕ) × IsChain grammar.old.rules (W.levels way grammar.old.rules) ps }
    requires index { IsIndexOf grammar.old index.old }
    requires room { room_along grammar.old.rules (W.levels way grammar.old.rules) ≤ grammar.old.spare_nodes }
    requires links { room_along grammar.old.rules (W.levels way grammar.old.rules) ≤ index.old.spare_links }
    requires cells { grammar.old.limit ≤ length index.old.cells }
    ensures others { DifferInStart grammar.old.rules grammar.new.rules }
    ensures values { (r : ℕ) → value_at (rules_of grammar.new.rules) r ≡ value_at (rules_of grammar.old.rules) r }
    ensures node { (ps : List ℕ) → IsChain grammar.old.rules (W.levels way grammar.old.rules) ps
        → IsIsolated grammar.old.rules grammar.new.rules (W.levels way grammar.old.rules) ps result }
    ensures front { (ps : List ℕ) → IsChain grammar.old.rules (W.levels way grammar.old.rules) ps → IsSameInFront grammar.old.rules grammar.new.rules ps result }
    ensures before { (l : Level) (ls : List Level) → W.levels way grammar.old.rules ≡ l ∷ ls → KeepsBefore (l.key ∷ []) grammar.old.rules grammar.new.rules }
    ensures size { size (rules_of grammar.new.rules) + calls_along (W.levels way grammar.old.rules)
        ≡ size (rules_of grammar.old.rules) + come_along grammar.old.rules (W.levels way grammar.old.rules) }
    ensures most { size (rules_of grammar.new.rules) + real_nodes (start_body (rules_of grammar.old.rules)) ≤ 2 * size (rules_of grammar.old.rules) }
    ensures index { IsIndexOf grammar.new index.new }
    ensures spare_nodes { grammar.old.spare_nodes ≤ grammar.new.spare_nodes + room_along grammar.old.rules (W.levels way grammar.old.rules) }
    ensures links { index.old.spare_links ≤ index.new.spare_links + room_along grammar.old.rules (W.levels way grammar.old.rules) }
    ensures numbers { index.new.spare_rules ≡ index.old.spare_rules }
    ensures spare_rules { grammar.new.spare_rules ≡ grammar.old.spare_rules }
    ensures limit { grammar.new.limit ≡ grammar.old.limit }
    ensures cells { length index.old.cells ≤ length index.new.cells }
    ensures steps { steps.new ≤ steps.old + W.most way grammar.old.rules }
{
    let key = isolate_linked(grammar, index, way, steps);
    key
}
