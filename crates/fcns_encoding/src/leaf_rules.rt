// Rules for leaves: the nodes without children are of few kinds and names, and there are many of each.
ghost use Rattle.std.specs.Prelude.{◌≡◌, ◌+◌, ◌*◌, ◌^◌, ◌<◌, ◌≤◌, ◌∷◌, ◌++◌, ◌⊎◌, ℕ, List, length, drop, get_or, map, max, slice_get, Some, None, IfOk, IfSome, IfNone, OnOk};
ghost use Rattle.rule_arena.specs.declared.label.Label.TheVariants.{Bottom};
ghost use Rattle.slt_grammar.specs.Bodies.{CallsBelow};
ghost use Rattle.slt_grammar.specs.Grammars.{IsGrammar, IsSwept, body_at, value};
ghost use Rattle.slt_grammar.specs.Ranks.{greatest_rank};
ghost use Rattle.fcns_encoding.specs.Leaves.{joined, joined_rule, leaf_rule, HasLeaf, AreLeafRules, AreSeen};

use slt_grammar::{Body, Label, Rule, RuleList};
use std::alloc::{AllocError, Global};

/// The same grammar with a rule for each symbol below a number that has a bottom as its first child `least` times or more: such a symbol
/// and the bottom are a call of that rule. Of all digrams in which such a symbol stands none is more frequent where the symbol has no
/// other children, so settling would begin with them; here each costs a glance.
pub(crate) fn share_leaves(
    alloc: Global,
    rules: RuleList,
    symbols: usize,
    least: u32,
) -> Result<RuleList, AllocError>
    requires grammar { IsGrammar rules }
    requires swept { IsSwept rules }
    requires least { 0 < least }
    ensures value { IfOk result (λ G. value G ≡ value rules) }
    ensures grammar { IfOk result (λ G. IsGrammar G) }
    ensures swept { IfOk result (λ G. IsSwept G) }
    ensures ranks { IfOk result (λ G. greatest_rank G ≤ max 1 (greatest_rank rules)) }
{
    let rules = rules.as_slice();
    let mut counts = vec![in alloc; 0; symbols]?;
    count_leaves(rules, counts.as_mut_slice());
    let mut places = vec![in alloc; None; symbols]?;
    share_counted(
        alloc,
        rules,
        counts.as_slice(),
        places.as_mut_slice(),
        least,
    )
}

// The same where leaves are counted, with room for the places of their rules.
fn share_counted(
    alloc: Global,
    rules: &[Rule],
    counts: &[u32],
    places: &mut [Option<usize>],
    least: u32,
) -> Result<RuleList, AllocError>
    requires grammar { IsGrammar rules.now }
    requires swept { IsSwept rules.now }
    requires seen { AreSeen rules.now counts.now }
    requires least { 0 < least }
    requires len { length places.old ≡ length counts.now }
    requires none { (f : ℕ) → get_or places.old f None ≡ None }
    ensures value { IfOk result (λ G. value G ≡ value rules.now) }
    ensures grammar { IfOk result (λ G. IsGrammar G) }
    ensures swept { IfOk result (λ G. IsSwept G) }
    ensures ranks { IfOk result (λ G. greatest_rank G ≤ max 1 (greatest_rank rules.now)) }
{
    // The call tells that calls are small.
    let _few = rule_count(rules);
    let leaves = leaf_rules(alloc, counts, places, least)?;
    let shared = join_rules(alloc, rules, places, leaves)?;
    Ok(shared)
}

// How many rules there are: fewer than memory has bytes.
fn rule_count(rules: &[Rule]) -> usize
    ensures value { result ≡ length rules.now }
    ensures few { result < 2 ^ 63 }
{
    rules.len()
}

// Counts the symbols that have a bottom as their first child, as far as there are counts.
fn count_leaves(rules: &[Rule], counts: &mut [u32])
    requires { (f : ℕ) → get_or counts.old f 0 ≡ 0 }
    ensures { AreSeen rules.now counts.new }
{
    for rule in rules {
        count_in(rule.body.as_slice(), counts);
    }
}

fn count_in(labels: &[Label], counts: &mut [u32])
    ensures { (f : ℕ) → 0 < get_or counts.new f 0 → (0 < get_or counts.old f 0) ⊎ HasLeaf f labels.now }
{
    for at in 1..labels.len() {
        if let (Label::Symbol(symbol), Label::Bottom) = (labels[at - 1], labels[at]) {
            count(counts, symbol);
        }
    }
}

// One more, as far as a count goes.
fn count(counts: &mut [u32], symbol: usize)
    ensures { (f : ℕ) → 0 < get_or counts.new f 0 → (0 < get_or counts.old f 0) ⊎ (f ≡ symbol) }
{
    if symbol < counts.len() {
        counts[symbol] = counts[symbol].saturating_add(1);
    }
}

// The rules of the symbols that are counted so often, and for each symbol the place of its rule.
fn leaf_rules(
    alloc: Global,
    counts: &[u32],
    places: &mut [Option<usize>],
    least: u32,
) -> Result<RuleList, AllocError>
    requires least { 0 < least }
    requires len { length places.old ≡ length counts.now }
    requires none { (f : ℕ) → get_or places.old f None ≡ None }
    ensures { IfOk result (λ G. AreLeafRules counts.now places.new G) }
{
    let mut leaves = RuleList::new(alloc);
    for symbol in 0..counts.len() {
        if counts[symbol] >= least {
            places[symbol] = Some(leaves.as_slice().len());
            leaves.push(1, leaf_body(alloc, symbol)?)?;
        }
    }
    Ok(leaves)
}

fn leaf_body(alloc: Global, symbol: usize) -> Result<Body, AllocError>
    ensures { IfOk result (λ body. body ≡ (leaf_rule symbol).body) }
{
    let mut body = Body::new(alloc);
    body.push(Label::Symbol(symbol))?;
    body.push(Label::Bottom)?;
    body.push(Label::Param)?;
    Ok(body)
}

// The rules behind those of the leaves.
fn join_rules(
    alloc: Global,
    rules: &[Rule],
    places: &[Option<usize>],
    leaves: RuleList,
) -> Result<RuleList, AllocError>
    requires calls { (r : ℕ) → CallsBelow (2 ^ 63) (body_at rules.now r) }
    ensures { IfOk result (λ G. G ≡ leaves ++ map (joined_rule places.now (length leaves)) rules.now) }
{
    let mut shared = leaves;
    let above = shared.as_slice().len();
    for rule in rules {
        let body = join(alloc, rule.body.as_slice(), places, above)?;
        shared.push(rule.rank, body)?;
    }
    Ok(shared)
}

// A body in which leaves are calls of their rules, and the other rules stand so many places further.
fn join(
    alloc: Global,
    labels: &[Label],
    places: &[Option<usize>],
    above: usize,
) -> Result<Body, AllocError>
    requires calls { CallsBelow (2 ^ 63) labels.now }
    requires above { above < 2 ^ 63 }
    ensures { IfOk result (λ body. body ≡ joined places.now above labels.now) }
{
    let mut body = Body::new(alloc);
    let mut at = 0;
    while at < labels.len() {
        let (label, width) = joined_at(labels, places, above, at);
        body.push(label)?;
        at += width;
    }
    Ok(body)
}

// The label that stands for those from a place on, and for how many of them.
fn joined_at(labels: &[Label], places: &[Option<usize>], above: usize, at: usize) -> (Label, usize)
    requires there { at < length labels.now }
    requires calls { CallsBelow (2 ^ 63) labels.now }
    requires above { above < 2 ^ 63 }
    ensures joined { joined places.now above (drop at labels.now) ≡ result.0 ∷ joined places.now above (drop (at + result.1) labels.now) }
    ensures some { 1 ≤ result.1 }
    ensures few { result.1 ≤ 2 }
{
    match labels[at] {
        Label::Symbol(symbol) => match leaf_at(labels, places, symbol, at + 1) {
            Some(leaf) => (Label::Call(leaf), 2),
            None => (Label::Symbol(symbol), 1),
        },
        Label::Call(rule) => (Label::Call(above + rule), 1),
        label => (label, 1),
    }
}

// The rule of a symbol, where it has one and a bottom comes next.
fn leaf_at(labels: &[Label], places: &[Option<usize>], symbol: usize, next: usize) -> Option<usize>
    ensures some { IfSome result (λ leaf. (slice_get labels.now next ≡ Some Bottom) × (get_or places.now symbol None ≡ Some leaf)) }
    ensures none { IfNone result (slice_get labels.now next ≡ Some Bottom → get_or places.now symbol None ≡ None) }
{
    match labels.get(next) {
        Some(Label::Bottom) => place_of(places, symbol),
        _ => None,
    }
}

// The place of a symbol's rule.
fn place_of(places: &[Option<usize>], symbol: usize) -> Option<usize>
    ensures { result ≡ get_or places.now symbol None }
{
    match places.get(symbol) {
        Some(place) => *place,
        None => None,
    }
}
