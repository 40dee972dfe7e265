// How many nodes come, and how many there are.
ghost use Rattle.std.specs.Prelude.{◌≡◌, ◌<◌, ◌≤◌, ◌+◌, ℕ, List, length};
ghost use Rattle.slt_grammar.specs.Grammars.{whole};
ghost use Rattle.slt_grammar.specs.Holding.{IsLawful};
ghost use Rattle.slt_grammar.specs.Keyed.{KeyedRule, nodes_at, rules_of};
ghost use Rattle.slt_grammar.specs.declared.level.Level.{Level};
ghost use Rattle.path_isolation.specs.Chains.{IsChain};
ghost use Rattle.path_isolation.specs.Isolations.{DifferInStart, room_along, start_of};

use crate::isolation::first_key;
use read_steps::Steps;
use slt_grammar::{Grammar, Way};
use std::sync::ledger::Ledger;

/// For how many nodes there has to be room where the node to which the way leads is isolated: as many as the bodies of its levels have
/// behind the first, with their parameters. It reads these bodies.
pub fn nodes_along<W: Way, L: Ledger>(grammar: &Grammar, mut way: W, steps: &mut Steps<L>) -> usize
    requires ready { W.ready way grammar.now.rules }
    requires chain { (ps : List ℕ) × IsChain grammar.now.rules (W.levels way grammar.now.rules) ps }
    ensures value { result ≡ room_along grammar.now.rules (W.levels way grammar.now.rules) }
    ensures steps { steps.new ≤ steps.old + (W.most way grammar.now.rules + result) }
{
    // The call tells that nodes are few.
    let _limit = grammar.limit();
    let _start = first_key(grammar, &mut way, steps);
    let mut nodes = 0;
    while let Some(level) = way.next(grammar, steps) {
        nodes += body_length(grammar, level.rule, steps);
    }
    nodes
}

/// How many nodes the bodies of all rules but the start have, with their parameters. So much room is enough to isolate any node, also
/// once the start's body is another. It reads these bodies, and nothing of the start's, which is mostly far longer than all of them.
pub fn nodes_elsewhere<L: Ledger>(grammar: &Grammar, steps: &mut Steps<L>) -> usize
    ensures value { result + length (nodes_at grammar.now.rules (start_of grammar.now.rules)) ≡ whole (rules_of grammar.now.rules) }
    ensures enough { (H : List KeyedRule) (levels : List Level) (ps : List ℕ) → DifferInStart grammar.now.rules H → IsLawful H → IsChain H levels ps
        → room_along H levels ≤ result }
    ensures steps { steps.new ≤ steps.old + whole (rules_of grammar.now.rules) }
{
    // The call tells that nodes are few.
    let _limit = grammar.limit();
    let start = grammar.rules() - 1;
    let mut nodes = 0;
    for rule in 0..start {
        nodes += body_length(grammar, rule, steps);
    }
    nodes
}

// How many nodes a body has, with its parameters. One step each.
fn body_length<L: Ledger>(grammar: &Grammar, rule: usize, steps: &mut Steps<L>) -> usize
    requires { rule < length grammar.now.rules }
    ensures value { result ≡ length (nodes_at grammar.now.rules rule) }
    ensures steps { steps.new ≡ steps.old + result }
{
    // The call tells that nodes are few.
    let _limit = grammar.limit();
    let mut nodes = 0;
    let mut next = Some(grammar.root(rule));
    while let Some(key) = next {
        nodes += 1;
        next = grammar.next_in_preorder(key, steps);
    }
    nodes
}

// How many nodes all bodies have, with their parameters.
pub(crate) fn count_nodes(grammar: &Grammar) -> usize
    ensures { result ≡ whole (rules_of grammar.now.rules) }
{
    // The call tells that these are few.
    let _limit = grammar.limit();
    let mut nodes = grammar.size() as usize;
    for rule in 0..grammar.rules() {
        nodes += grammar.rank(rule);
    }
    nodes
}
