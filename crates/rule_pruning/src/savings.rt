// How many nodes a rule saves.
ghost use Rattle.std.specs.Prelude.{◌≡◌, ◌+◌, ◌<◌, ◌≤◌, ◌^◌, ◌∷◌, [], length, MatchBool, ⊤};
ghost use Rattle.slt_grammar.specs.Bodies.{real_nodes};
ghost use Rattle.slt_grammar.specs.Digrams.{Saves};
ghost use Rattle.slt_grammar.specs.Grammars.{body_at};
ghost use Rattle.slt_grammar.specs.Keyed.{nodes_at, rules_of};
ghost use Rattle.rule_pruning.specs.Saving.{saving_of, AllSave};

use read_steps::Steps;
use slt_grammar::{Grammar, Label};
use std::marker::Brand;
use std::sync::ledger::{Blank, Ledger};

/// How many more nodes there would be without a rule, which is not the start, if its body came in the place of each of its calls. A
/// parameter is no node here. It is below 0 where there would be fewer.
pub fn saving(grammar: &Grammar, rule: usize) -> i128
    requires { rule + 1 < length grammar.now.rules }
    ensures { result ≡ saving_of (rules_of grammar.now.rules) rule }
{
    // The call tells that calls and nodes are few.
    let _limit = grammar.limit();
    let calls = grammar.calls(rule) as i128;
    let nodes = body_size::<Brand>(grammar, rule, Blank::new(1)) as i128;
    calls * (nodes - 1) - nodes
}

// Whether a rule saves nodes: with two calls a body of three nodes does, with more one of two. So three nodes of its body are read at most.
pub(crate) fn saves(grammar: &Grammar, rule: usize) -> bool
    requires { rule + 1 < length grammar.now.rules }
    ensures { MatchBool result (Saves (rules_of grammar.now.rules) rule) (Saves (rules_of grammar.now.rules) rule → ⊥) }
{
    let calls = grammar.calls(rule);
    if calls < 2 {
        return false;
    }
    if calls == 2 {
        return has_nodes::<Brand>(grammar, rule, 3, Blank::new(1));
    }
    has_nodes::<Brand>(grammar, rule, 2, Blank::new(1))
}

// Whether every rule but the start saves nodes.
pub(crate) fn all_save(grammar: &Grammar) -> bool
    ensures { MatchBool result (AllSave (rules_of grammar.now.rules)) ⊤ }
{
    for rule in 0..grammar.rules() - 1 {
        if !saves(grammar, rule) {
            return false;
        }
    }
    true
}

// Whether a body has so many nodes, one at least, that are no parameters. It is read no further, and its root alone where that has so many
// children more than there are parameters: each has a node, and a parameter stands once.
fn has_nodes<L: Ledger>(grammar: &Grammar, rule: usize, least: u64, blank: Blank) -> bool
    requires there { rule < length grammar.now.rules }
    requires least { 0 < least }
    requires name { blank.name ≡ L.name }
    requires parts { blank.parts ≡ L.parts }
    requires some { 0 < blank.parts }
    ensures { MatchBool result (least ≤ real_nodes (body_at (rules_of grammar.now.rules) rule)) (real_nodes (body_at (rules_of grammar.now.rules) rule) < least) }
{
    // The call tells that a body is a term.
    let _limit = grammar.limit();
    let mut steps: Steps<L> = Steps::new(blank);
    let kids = grammar.site(grammar.root(rule), &mut steps).arity;
    if (kids + 1).saturating_sub(grammar.rank(rule)) as u64 >= least {
        return true;
    }
    let mut labels = grammar.walk(rule);
    let mut size = 0;
    while let Some(label) = labels.next(&mut steps) {
        size += node_count(label);
        if size >= least {
            return true;
        }
    }
    false
}

// How many nodes a body has, with its parameters.
pub(crate) fn body_length(grammar: &Grammar, rule: usize) -> usize
    requires { rule < length grammar.now.rules }
    ensures { result ≡ length (nodes_at grammar.now.rules rule) }
{
    // The call tells that the nodes are few.
    let _limit = grammar.limit();
    let nodes = body_size::<Brand>(grammar, rule, Blank::new(1)) as usize;
    nodes + grammar.rank(rule)
}

// How many nodes of a body are no parameters.
fn body_size<L: Ledger>(grammar: &Grammar, rule: usize, blank: Blank) -> u64
    requires there { rule < length grammar.now.rules }
    requires name { blank.name ≡ L.name }
    requires parts { blank.parts ≡ L.parts }
    requires some { 0 < blank.parts }
    ensures size { result ≡ real_nodes (body_at (rules_of grammar.now.rules) rule) }
    ensures few { result < 2 ^ 63 }
{
    // The call tells that the nodes are few.
    let _limit = grammar.limit();
    let mut steps: Steps<L> = Steps::new(blank);
    let mut labels = grammar.walk(rule);
    let mut size = 0;
    while let Some(label) = labels.next(&mut steps) {
        size += node_count(label);
    }
    size
}

// One for a label that is no parameter.
fn node_count(label: Label) -> u64
    ensures { result ≡ real_nodes (label ∷ []) }
{
    match label {
        Label::Param => 0,
        _ => 1,
    }
}
