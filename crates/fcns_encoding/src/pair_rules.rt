// Rules for pairs of a symbol and a call that is its first child, where the start rule has many of them.
ghost use Rattle.std.specs.Prelude.{◌≡◌, ◌+◌, ◌-◌, ◌*◌, ◌^◌, ◌<◌, ◌≤◌, ◌↔◌, ◌∷◌, ◌++◌, ◌⊎◌, ℕ, length, drop, get_or, map, max, slice_get, Some, None, IsTrue, IfOk, IfSome, IfNone};
ghost use Rattle.indexmap.specs.IndexMap.{keys};
ghost use Rattle.slt_grammar.specs.Grammars.{IsGrammar, IsSwept, rank_at, value};
ghost use Rattle.slt_grammar.specs.Ranks.{greatest_rank};
ghost use Rattle.fcns_encoding.specs.declared.pair_rules.Pair.{Pair};
ghost use Rattle.fcns_encoding.specs.Pairs.{pair_rule, place_of, paired, with_pairs, StandsAt, AreFound, AreApart};

use indexmap::IndexMap;
use slt_grammar::{Body, Label, Rule, RuleList};
use std::alloc::{AllocError, Global};

/// How often a pair must stand for a rule of its own: so many times, which are so many percent of its symbol's places or more.
#[derive(Clone, Copy, Drop)]
pub(crate) struct Frequent {
    pub(crate) times: u32,
    pub(crate) percent: u32,
}

impl Frequent {
    // Whether so many of the symbol's places are enough.
    fn admits(self, times: u32, places: u32) -> bool
        ensures { IsTrue result ↔ ((self.times ≤ times) × (places * self.percent ≤ times * 100)) }
    {
        times >= self.times && places as u64 * self.percent as u64 <= times as u64 * 100
    }
}

/// A symbol whose first child is a call of a rule.
#[derive(Clone, Copy, PartialEq, Eq, Hash, Drop)]
struct Pair {
    symbol: usize,
    rule: usize,
}

/// The same grammar with a rule for each pair of a symbol below a number and a rule without parameters that is frequent in the start
/// rule: there both are one call. Settling would begin with such digrams, and fold each of their places; here each costs a glance. The
/// new rules stand right before the start, so that no call changes its number.
pub(crate) fn share_pairs(
    alloc: Global,
    rules: RuleList,
    symbols: usize,
    frequent: Frequent,
) -> Result<RuleList, AllocError>
    requires grammar { IsGrammar rules }
    requires swept { IsSwept rules }
    ensures value { IfOk result (λ G. value G ≡ value rules) }
    ensures grammar { IfOk result (λ G. IsGrammar G) }
    ensures swept { IfOk result (λ G. IsSwept G) }
    ensures ranks { IfOk result (λ G. greatest_rank G ≤ max 1 (greatest_rank rules)) }
{
    let Some((start, before)) = rules.as_slice().split_last() else {
        return Ok(rules);
    };
    let pairs = frequent_pairs(alloc, before, start.body.as_slice(), symbols, frequent)?;
    if pairs.is_empty() {
        return Ok(rules);
    }
    let shared = pair_rules(alloc, before, start, &pairs)?;
    Ok(shared)
}

// The pairs that are frequent among the labels, in the order in which they come.
fn frequent_pairs(
    alloc: Global,
    rules: &[Rule],
    labels: &[Label],
    symbols: usize,
    frequent: Frequent,
) -> Result<IndexMap<Pair, u32>, AllocError>
    ensures found { IfOk result (λ pairs. AreFound rules.now labels.now (keys pairs)) }
    ensures apart { IfOk result (λ pairs. AreApart (keys pairs)) }
{
    let mut places = vec![in alloc; 0; symbols]?;
    count_symbols(labels, places.as_mut_slice());
    let places = places.as_slice();
    let mut pairs = counted_pairs(alloc, rules, labels, places, frequent.times)?;
    pairs.retain(|pair: &Pair, times: &mut u32| {
        frequent.admits(*times, places_of(places, pair.symbol))
    });
    Ok(pairs)
}

// Counts each symbol, as far as there are counts.
fn count_symbols(labels: &[Label], counts: &mut [u32]) {
    for label in labels {
        if let Label::Symbol(symbol) = *label
            && symbol < counts.len()
        {
            counts[symbol] = counts[symbol].saturating_add(1);
        }
    }
}

// How many places a symbol has, and the most where it was not counted.
fn places_of(places: &[u32], symbol: usize) -> u32
    ensures { result ≡ get_or places.now symbol (2 ^ 32 - 1) }
{
    places.get(symbol).copied().unwrap_or(u32::MAX)
}

// How often each pair of a rule without parameters stands among the labels, where its symbol has so many places: most symbols have
// fewer, and their pairs are not hashed.
fn counted_pairs(
    alloc: Global,
    rules: &[Rule],
    labels: &[Label],
    places: &[u32],
    times: u32,
) -> Result<IndexMap<Pair, u32>, AllocError>
    ensures { IfOk result (λ pairs. AreFound rules.now labels.now (keys pairs)) }
{
    let mut pairs = IndexMap::new(alloc);
    for at in 0..labels.len() {
        if let Some(pair) = pair_at(labels, at)
            && places_of(places, pair.symbol) >= times
            && is_plain(rules, pair.rule)
        {
            count(&mut pairs, pair)?;
        }
    }
    Ok(pairs)
}

// The pair that stands at a place.
fn pair_at(labels: &[Label], at: usize) -> Option<Pair>
    requires { at < length labels.now }
    ensures some { IfSome result (λ pair. StandsAt pair labels.now at) }
    ensures none { IfNone result ((pair : Pair) → StandsAt pair labels.now at → ⊥) }
{
    match (labels.get(at), labels.get(at + 1)) {
        (Some(Label::Symbol(symbol)), Some(Label::Call(rule))) => Some(Pair {
            symbol: *symbol,
            rule: *rule,
        }),
        _ => None,
    }
}

// Whether a rule has no parameters.
fn is_plain(rules: &[Rule], rule: usize) -> bool
    ensures { IsTrue result ↔ ((rule < length rules.now) × (rank_at rules.now rule ≡ 0)) }
{
    match rules.get(rule) {
        Some(rule) => rule.rank == 0,
        None => false,
    }
}

// Counts a pair once more, as far as a count goes.
fn count(pairs: &mut IndexMap<Pair, u32>, pair: Pair) -> Result<(), AllocError>
    ensures { (i : ℕ) (p : Pair) → slice_get (keys pairs.new) i ≡ Some p → (slice_get (keys pairs.old) i ≡ Some p) ⊎ (p ≡ pair) }
{
    match pairs.get_index_of(&pair) {
        Some(index) => pairs[index] = pairs[index].saturating_add(1),
        None => {
            pairs.insert(pair, 1)?;
        }
    }
    Ok(())
}

// The rules before the start, those of the pairs, and the start.
fn pair_rules(
    alloc: Global,
    before: &[Rule],
    start: &Rule,
    pairs: &IndexMap<Pair, u32>,
) -> Result<RuleList, AllocError>
    ensures { IfOk result (λ G. G ≡ with_pairs (keys pairs.now) before.now start.now) }
{
    let copies = copied_rules(alloc, before)?;
    let mut rules = with_pair_rules(alloc, copies, pairs.keys().as_slice())?;
    let body = paired_body(alloc, start.body.as_slice(), pairs, before.len())?;
    rules.push(start.rank, body)?;
    Ok(rules)
}

// The rules, and behind them those of the pairs.
fn with_pair_rules(alloc: Global, rules: RuleList, pairs: &[Pair]) -> Result<RuleList, AllocError>
    ensures { IfOk result (λ G. G ≡ rules ++ map pair_rule pairs.now) }
{
    let mut all = rules;
    for pair in pairs {
        all.push(1, pair_body(alloc, *pair)?)?;
    }
    Ok(all)
}

fn copied_rules(alloc: Global, rules: &[Rule]) -> Result<RuleList, AllocError>
    ensures { IfOk result (λ G. G ≡ rules.now) }
{
    let mut copies = RuleList::new(alloc);
    for rule in rules {
        copies.push(rule.rank, copied(alloc, rule.body.as_slice())?)?;
    }
    Ok(copies)
}

fn copied(alloc: Global, labels: &[Label]) -> Result<Body, AllocError>
    ensures { IfOk result (λ body. body ≡ labels.now) }
{
    let mut body = Body::new(alloc);
    for label in labels {
        body.push(*label)?;
    }
    Ok(body)
}

fn pair_body(alloc: Global, pair: Pair) -> Result<Body, AllocError>
    ensures { IfOk result (λ body. body ≡ (pair_rule pair).body) }
{
    let mut body = Body::new(alloc);
    body.push(Label::Symbol(pair.symbol))?;
    body.push(Label::Call(pair.rule))?;
    body.push(Label::Param)?;
    Ok(body)
}

// A body in which pairs are calls of their rules, which stand from a place on.
fn paired_body(
    alloc: Global,
    labels: &[Label],
    pairs: &IndexMap<Pair, u32>,
    above: usize,
) -> Result<Body, AllocError>
    requires above { above < 2 ^ 63 }
    ensures { IfOk result (λ body. body ≡ paired (keys pairs.now) above labels.now) }
{
    let mut body = Body::new(alloc);
    let mut at = 0;
    while at < labels.len() {
        let (label, width) = paired_at(labels, pairs, above, at);
        body.push(label)?;
        at += width;
    }
    Ok(body)
}

// The label that stands for those from a place on, and for how many of them.
fn paired_at(
    labels: &[Label],
    pairs: &IndexMap<Pair, u32>,
    above: usize,
    at: usize,
) -> (Label, usize)
    requires there { at < length labels.now }
    requires above { above < 2 ^ 63 }
    ensures paired { paired (keys pairs.now) above (drop at labels.now) ≡ result.0 ∷ paired (keys pairs.now) above (drop (at + result.1) labels.now) }
    ensures some { 1 ≤ result.1 }
    ensures few { result.1 ≤ 2 }
{
    match place_at(labels, pairs, at) {
        Some(place) => (Label::Call(above + place), 2),
        None => (labels[at], 1),
    }
}

// The place of the pair that stands here, among those that have rules.
fn place_at(labels: &[Label], pairs: &IndexMap<Pair, u32>, at: usize) -> Option<usize>
    requires there { at < length labels.now }
    ensures some { IfSome result (λ place. (pair : Pair) × StandsAt pair labels.now at × (place_of (keys pairs.now) pair ≡ Some place)) }
    ensures few { IfSome result (λ place. place < 2 ^ 63) }
    ensures none { IfNone result ((pair : Pair) → StandsAt pair labels.now at → place_of (keys pairs.now) pair ≡ None) }
{
    // The call tells that places are small.
    let _few = pairs.len();
    let pair = pair_at(labels, at)?;
    pairs.get_index_of(&pair)
}
