// The calls of a chain, inlined one after another.
ghost use Rattle.std.specs.Prelude.{◌≡◌, ◌<◌, ◌≤◌, ◌+◌, ◌*◌, ◌∷◌, ℕ, List, IfOk, IsOk, OnErr, OnOk, length};
ghost use Rattle.slt_grammar.specs.Bodies.{real_nodes};
ghost use Rattle.slt_grammar.specs.ChangedValues.{start_body};
ghost use Rattle.slt_grammar.specs.Grammars.{size, value_at, whole};
ghost use Rattle.slt_grammar.specs.Keyed.{KeyedRule, nodes_at, rules_of};
ghost use Rattle.slt_grammar.specs.Ways.{HaveSameRules};
ghost use Rattle.slt_grammar.specs.declared.level.Level.{Level};
ghost use Rattle.path_isolation.specs.Chains.{IsChain};
ghost use Rattle.path_isolation.specs.Isolations.{DifferInStart, IsIsolated, Walk, calls_along, come_along, room_along};

use crate::measuring::count_nodes;
use read_steps::Steps;
use slt_grammar::{Grammar, Key, Level, Way};
use std::alloc::AllocError;
use std::sync::ledger::Ledger;

/// Makes the node to which the way leads a node of the start's body, and answers it. Each call of the way is inlined once. All
/// memory is taken first, for as many nodes as all bodies have, so that a refusal changes nothing; where there is room for these, none
/// is taken.
pub fn isolate<W: Way, L: Ledger>(
    grammar: &mut Grammar,
    way: W,
    steps: &mut Steps<L>,
) -> Result<Key, AllocError>
    requires ready { W.ready way grammar.old.rules }
    requires chain { (ps : List ℕ) × IsChain grammar.old.rules (W.levels way grammar.old.rules) ps }
    ensures refused { OnErr result (grammar.new.rules ≡ grammar.old.rules) }
    ensures succeeds { whole (rules_of grammar.old.rules) ≤ grammar.old.spare_nodes → IsOk result }
    ensures others { DifferInStart grammar.old.rules grammar.new.rules }
    ensures values { (r : ℕ) → value_at (rules_of grammar.new.rules) r ≡ value_at (rules_of grammar.old.rules) r }
    ensures node { IfOk result (λ key. (ps : List ℕ) → IsChain grammar.old.rules (W.levels way grammar.old.rules) ps
        → IsIsolated grammar.old.rules grammar.new.rules (W.levels way grammar.old.rules) ps key) }
    ensures size { OnOk result (size (rules_of grammar.new.rules) + calls_along (W.levels way grammar.old.rules)
        ≡ size (rules_of grammar.old.rules) + come_along grammar.old.rules (W.levels way grammar.old.rules)) }
    ensures most { size (rules_of grammar.new.rules) + real_nodes (start_body (rules_of grammar.old.rules)) ≤ 2 * size (rules_of grammar.old.rules) }
    ensures spare_nodes { OnOk result (grammar.old.spare_nodes ≤ grammar.new.spare_nodes + whole (rules_of grammar.old.rules)) }
    ensures spare_rules { grammar.old.spare_rules ≤ grammar.new.spare_rules }
    ensures limit { grammar.old.limit ≤ grammar.new.limit }
    ensures stays { whole (rules_of grammar.old.rules) ≤ grammar.old.spare_nodes → grammar.new.limit ≡ grammar.old.limit }
    ensures steps { steps.new ≤ steps.old + W.most way grammar.old.rules }
{
    // The call tells that the rules are a grammar.
    let _limit = grammar.limit();
    grammar.reserve(count_nodes(grammar), 0)?;
    Ok(isolate_within(grammar, way, steps))
}

/// The same where there is room for the bodies of the way's levels behind the first. It takes no memory.
pub fn isolate_within<W: Way, L: Ledger>(
    grammar: &mut Grammar,
    mut way: W,
    steps: &mut Steps<L>,
) -> Key
    requires ready { W.ready way grammar.old.rules }
    requires chain { (ps : List ℕ) × IsChain grammar.old.rules (W.levels way grammar.old.rules) ps }
    requires room { room_along grammar.old.rules (W.levels way grammar.old.rules) ≤ grammar.old.spare_nodes }
    ensures others { DifferInStart grammar.old.rules grammar.new.rules }
    ensures values { (r : ℕ) → value_at (rules_of grammar.new.rules) r ≡ value_at (rules_of grammar.old.rules) r }
    ensures node { (ps : List ℕ) → IsChain grammar.old.rules (W.levels way grammar.old.rules) ps
        → IsIsolated grammar.old.rules grammar.new.rules (W.levels way grammar.old.rules) ps result }
    ensures size { size (rules_of grammar.new.rules) + calls_along (W.levels way grammar.old.rules)
        ≡ size (rules_of grammar.old.rules) + come_along grammar.old.rules (W.levels way grammar.old.rules) }
    ensures most { size (rules_of grammar.new.rules) + real_nodes (start_body (rules_of grammar.old.rules)) ≤ 2 * size (rules_of grammar.old.rules) }
    ensures spare_nodes { grammar.old.spare_nodes ≤ grammar.new.spare_nodes + room_along grammar.old.rules (W.levels way grammar.old.rules) }
    ensures spare_rules { grammar.new.spare_rules ≡ grammar.old.spare_rules }
    ensures limit { grammar.new.limit ≡ grammar.old.limit }
    ensures steps { steps.new ≤ steps.old + W.most way grammar.old.rules }
{
    // The call tells that the rules are a grammar.
    let _limit = grammar.limit();
    let mut here = first_key(grammar, &mut way, steps);
    while let Some(level) = way.next(grammar, steps) {
        here = follow(grammar, here, level);
    }
    here
}

// The key of the first level.
pub(crate) fn first_key<W: Way, L: Ledger>(
    grammar: &Grammar,
    way: &mut W,
    steps: &mut Steps<L>,
) -> Key
    requires ready { W.ready way.old grammar.now.rules }
    requires some { (l : Level) × (ls : List Level) × (W.levels way.old grammar.now.rules ≡ l ∷ ls) }
    ensures ready { W.ready way.new grammar.now.rules }
    ensures key { (l : Level) (ls : List Level) → W.levels way.old grammar.now.rules ≡ l ∷ ls → (result ≡ l.key) × (W.levels way.new grammar.now.rules ≡ ls) }
    ensures steps { steps.new + W.most way.new grammar.now.rules ≤ steps.old + W.most way.old grammar.now.rules }
{
    way.next(grammar, steps).unwrap().key
}

// Inlines a call of the chain, and answers where the next level's node is now. It takes no memory.
fn follow(grammar: &mut Grammar, here: Key, level: Level) -> Key
    requires walk { (G : List KeyedRule) × (levels : List Level) × (qs : List ℕ) × (ls : List Level) × Walk G levels qs grammar.old.rules here (level ∷ ls) }
    requires room { length (nodes_at grammar.old.rules level.rule) ≤ grammar.old.spare_nodes }
    ensures walk { (G : List KeyedRule) (levels : List Level) (qs : List ℕ) (ls : List Level)
        → Walk G levels qs grammar.old.rules here (level ∷ ls) → Walk G levels qs grammar.new.rules result ls }
    ensures kept { (G : List KeyedRule) (levels : List Level) (qs : List ℕ) (ls : List Level)
        → Walk G levels qs grammar.old.rules here (level ∷ ls) → HaveSameRules ls grammar.old.rules grammar.new.rules }
    ensures spare_nodes { grammar.old.spare_nodes ≤ grammar.new.spare_nodes + length (nodes_at grammar.old.rules level.rule) }
    ensures spare_rules { grammar.new.spare_rules ≡ grammar.old.spare_rules }
    ensures limit { grammar.new.limit ≡ grammar.old.limit }
{
    grammar.inline(here, level.key).unwrap().followed
}
