// What stands before a node of the grammar's value, and what the code of its kids weighs.
ghost use Rattle.std.specs.Prelude.{◌≡◌, ◌↔◌, ℕ, ◌<◌, ◌≤◌, ◌+◌, ◌-◌, ◌*◌, ◌^◌, [], ◌∷◌, List, Some, IsSome, IfSome, true, false, length, get_or, drop, take, slice_get, sum, sum_by};
ghost use Rattle.rule_arena.specs.Terms.{Node};
ghost use Rattle.slt_grammar.specs.Algebras.{ranks_of};
ghost use Rattle.slt_grammar.specs.Bodies.{CallsBelow, arity, params};
ghost use Rattle.slt_grammar.specs.Grammars.{IsGrammar, whole};
ghost use Rattle.slt_grammar.specs.Keyed.{IsKeyed, key_at, nodes_at, rules_of};
ghost use Rattle.slt_grammar.specs.Segments.{node_tour, part_of, preorder};
ghost use Rattle.slt_grammar.specs.declared.rules.Rule.{Rule};
ghost use Rattle.segment_counts.specs.Counting.{told};
ghost use Rattle.segment_counts.specs.declared.counts.Measure.TheVariants.{Nodes};
ghost use Rattle.preorder_address.specs.Sites.{labels_before, laden, own_weight, term_weights, weight_before, weight_below};
ghost use Rattle.preorder_address.specs.Weighing.{AreCountsBy, IsSmallCall, measure_by, params_at, passed, weight_of};

use crate::descent::locate;
use crate::weigher::Weigher;
use read_steps::Steps;
use segment_counts::Counts;
use slt_grammar::{Grammar, Key, Label, Level, TourWalk};
use std::sync::ledger::Ledger;

// A rule has no more parameters.
pub(crate) const MOST_KIDS: usize = 8;

// The weight of all that stands before a node of the grammar's value, and that of the code of the node's kids.
#[derive(Clone, Copy, Drop)]
pub(crate) struct Site {
    pub(crate) before: u64,
    pub(crate) below: u64,
}

// The weight of all that stands before a node of a body, and how many parameters stand there.
#[derive(Clone, Copy, Drop)]
pub(crate) struct Passed {
    pub(crate) weight: u64,
    pub(crate) params: usize,
}

// In which kid of a node a walk stands, and how many of the kid's terms are left.
#[derive(Clone, Copy, Drop)]
pub(crate) struct KidPlace {
    pub(crate) kid: usize,
    pub(crate) left: usize,
}

impl KidPlace {
    // Goes past a node with some kids.
    fn pass(self, kids: usize) -> KidPlace
        requires some { 0 < self.left }
        requires few { self.left + kids < 2 ^ 64 }
        requires kid { self.kid < 8 }
        ensures { result ≡ passed self kids }
    {
        let left = self.left + kids - 1;
        if left == 0 {
            KidPlace {
                kid: self.kid + 1,
                left: 1,
            }
        } else {
            KidPlace {
                kid: self.kid,
                left,
            }
        }
    }
}

// The site of the node with this number, and None exactly where the number isn't below the total. It takes no memory: level by level it
// keeps what the arguments of the rule's call weigh.
pub(crate) fn site_of<L: Ledger>(
    grammar: &Grammar,
    counts: &Counts,
    weigher: &Weigher<'_>,
    number: u64,
    steps: &mut Steps<L>,
) -> Option<Site>
    requires counts { AreCountsBy weigher.now (rules_of grammar.now.rules) counts.now }
    ensures some { IsSome result ↔ number < told Nodes counts.now.rows (counts.now.rules - 1) 0 }
    ensures before { IfSome result (λ site. site.before ≡ weight_before (weight_of weigher.now) [] (preorder (rules_of grammar.now.rules) (length grammar.now.rules - 1)) number) }
    ensures below { IfSome result (λ site. site.below ≡ weight_below (weight_of weigher.now) [] (preorder (rules_of grammar.now.rules) (length grammar.now.rules - 1)) number) }
    ensures steps { steps.new ≤ steps.old + 10 * whole (rules_of grammar.now.rules) }
{
    // The call tells what is true of every grammar.
    let _limit = grammar.limit();
    let mut descent = locate(counts, number)?;
    let mut before = 0;
    let mut kids = [0; MOST_KIDS];
    while let Some(level) = descent.next(grammar, counts, steps) {
        let Level { rule, key } = level;
        let passed = pass_to(grammar, counts, weigher, rule, key, &kids, steps);
        before += passed.weight;
        kids = kid_weights(grammar, counts, weigher, key, passed.params, &kids, steps);
    }
    Some(Site {
        before,
        below: kids[0],
    })
}

// Goes along the tour of a rule up to a node. The parameters weigh what `args` says.
pub(crate) fn pass_to<L: Ledger>(
    grammar: &Grammar,
    counts: &Counts,
    weigher: &Weigher<'_>,
    rule: usize,
    key: Key,
    args: &[u64; MOST_KIDS],
    steps: &mut Steps<L>,
) -> Passed
    requires keyed { IsKeyed grammar.now }
    requires counts { AreCountsBy weigher.now (rules_of grammar.now.rules) counts.now }
    requires there { (p : ℕ) × (key_at grammar.now.rules rule p ≡ Some key) }
    requires small { laden (weight_of weigher.now) args.now (preorder (rules_of grammar.now.rules) rule) < 2 ^ 64 }
    ensures weight { (p : ℕ) → key_at grammar.now.rules rule p ≡ Some key → result.weight
        ≡ laden (weight_of weigher.now) args.now (labels_before grammar.now.rules rule p) }
    ensures params { (p : ℕ) → key_at grammar.now.rules rule p ≡ Some key → result.params ≡ params (labels_before grammar.now.rules rule p) }
    ensures few { result.params < 9 }
    ensures steps { steps.new ≤ steps.old + 2 * length (node_tour grammar.now.rules rule) }
{
    let mut walk = TourWalk::new(grammar, rule);
    let mut passed = Passed {
        weight: 0,
        params: 0,
    };
    'stops: loop {
        if begins_at(&walk, key) {
            return passed;
        }
        let site = grammar.site(walk.key, steps);
        passed.weight += part_weight(counts, weigher, site.label, walk.part, args, passed.params);
        passed.params += params_of(site.label);
        if !walk.advance(grammar, &site, steps) {
            unreachable!()
        }
    }
}

// Whether a walk stands at this node, before its kids.
pub(crate) fn begins_at(walk: &TourWalk, key: Key) -> bool
    ensures yes { result ≡ true → (walk.now.key ≡ key) × (walk.now.part ≡ 0) }
    ensures no { result ≡ false → walk.now.key ≡ key → walk.now.part ≡ 0 → ⊥ }
{
    walk.part == 0 && walk.key == key
}

// What each kid of a node weighs, its calls replaced, where so many parameters stand before the node.
pub(crate) fn kid_weights<L: Ledger>(
    grammar: &Grammar,
    counts: &Counts,
    weigher: &Weigher<'_>,
    key: Key,
    params: usize,
    args: &[u64; MOST_KIDS],
    steps: &mut Steps<L>,
) -> [u64; MOST_KIDS]
    requires keyed { IsKeyed grammar.now }
    requires counts { AreCountsBy weigher.now (rules_of grammar.now.rules) counts.now }
    requires there { (r : ℕ) × (p : ℕ) × (key_at grammar.now.rules r p ≡ Some key) }
    requires few { params < 9 }
    requires small { (r p : ℕ) (x : Node) → slice_get (nodes_at grammar.now.rules r) p ≡ Some x → x.key ≡ key
        → sum (take x.kids (term_weights (weight_of weigher.now) (rules_of grammar.now.rules) (drop params args.now) (drop (p + 1) (nodes_at grammar.now.rules r)))) < 2 ^ 64 }
    ensures weights { (r p : ℕ) (x : Node) → slice_get (nodes_at grammar.now.rules r) p ≡ Some x → x.key ≡ key → (j : ℕ) → get_or result j 0
        ≡ get_or (take x.kids (term_weights (weight_of weigher.now) (rules_of grammar.now.rules) (drop params args.now) (drop (p + 1) (nodes_at grammar.now.rules r)))) j 0 }
    ensures steps { (r p : ℕ) → key_at grammar.now.rules r p ≡ Some key → steps.new ≤ steps.old + 2 * length (nodes_at grammar.now.rules r) }
{
    first_kid_weights(
        grammar, counts, weigher, key, MOST_KIDS, params, args, steps,
    )
}

// The same of so many kids alone.
pub(crate) fn first_kid_weights<L: Ledger>(
    grammar: &Grammar,
    counts: &Counts,
    weigher: &Weigher<'_>,
    key: Key,
    limit: usize,
    params: usize,
    args: &[u64; MOST_KIDS],
    steps: &mut Steps<L>,
) -> [u64; MOST_KIDS]
    requires keyed { IsKeyed grammar.now }
    requires counts { AreCountsBy weigher.now (rules_of grammar.now.rules) counts.now }
    requires there { (r : ℕ) × (p : ℕ) × (key_at grammar.now.rules r p ≡ Some key) }
    requires few { params < 9 }
    requires small { (r p : ℕ) (x : Node) → slice_get (nodes_at grammar.now.rules r) p ≡ Some x → x.key ≡ key
        → sum (take x.kids (term_weights (weight_of weigher.now) (rules_of grammar.now.rules) (drop params args.now) (drop (p + 1) (nodes_at grammar.now.rules r)))) < 2 ^ 64 }
    ensures weights { (r p : ℕ) (x : Node) → slice_get (nodes_at grammar.now.rules r) p ≡ Some x → x.key ≡ key → (j : ℕ) → (limit ≤ j → x.kids ≤ j) → get_or result j 0
        ≡ get_or (take x.kids (term_weights (weight_of weigher.now) (rules_of grammar.now.rules) (drop params args.now) (drop (p + 1) (nodes_at grammar.now.rules r)))) j 0 }
    ensures steps { (r p : ℕ) → key_at grammar.now.rules r p ≡ Some key → steps.new ≤ steps.old + 2 * length (nodes_at grammar.now.rules r) }
{
    let (_label, arity) = node_of(grammar, key, steps);
    let end = lesser(arity, limit);
    let mut next = grammar.next_in_preorder(key, steps);
    let mut place = KidPlace { kid: 0, left: 1 };
    let mut param = params;
    let mut weights = [0; MOST_KIDS];
    while place.kid < end {
        let Some(node) = next else { unreachable!() };
        let (label, kids) = node_of(grammar, node, steps);
        weights[place.kid] += node_weight(counts, weigher, label, kids, args, param);
        param += params_of(label);
        place = place.pass(kids);
        next = grammar.next_in_preorder(node, steps);
    }
    weights
}

fn lesser(first: usize, second: usize) -> usize
    ensures under { result ≤ first }
    ensures reached { (j : ℕ) → result ≤ j → j < first → second ≤ j }
{
    if first < second { first } else { second }
}

// The label of a node, and how many kids it has.
fn node_of<L: Ledger>(grammar: &Grammar, key: Key, steps: &mut Steps<L>) -> (Label, usize)
    requires { (r : ℕ) × (p : ℕ) × (key_at grammar.now.rules r p ≡ Some key) }
    ensures node { (r p : ℕ) → key_at grammar.now.rules r p ≡ Some key → slice_get (nodes_at grammar.now.rules r) p
        ≡ Some (record { key = key; label = result.0; kids = result.1 }) }
    ensures step { steps.new ≡ steps.old + 1 }
{
    let site = grammar.site(key, steps);
    (site.label, site.arity)
}

// What a part of a node weighs, where so many parameters stand before it.
fn part_weight(
    counts: &Counts,
    weigher: &Weigher<'_>,
    label: Label,
    part: usize,
    args: &[u64; MOST_KIDS],
    params: usize,
) -> u64
    ensures { (G : List Rule) → AreCountsBy weigher.now G counts.now → CallsBelow (length G) (label ∷ [])
        → result ≡ laden (weight_of weigher.now) (drop params args.now) (part_of G label part) }
{
    match label {
        Label::Param => arg_at(args, params),
        _ => weigher.part(counts, label, part),
    }
}

// What a node weighs in all its parts, where so many parameters stand before it.
fn node_weight(
    counts: &Counts,
    weigher: &Weigher<'_>,
    label: Label,
    kids: usize,
    args: &[u64; MOST_KIDS],
    params: usize,
) -> u64
    requires few { kids < 9 }
    requires small { IsSmallCall (measure_by weigher.now) counts.now label kids }
    ensures { (G : List Rule) → IsGrammar G → AreCountsBy weigher.now G counts.now → CallsBelow (length G) (label ∷ []) → kids ≡ arity (ranks_of G) label
        → result ≡ own_weight (weight_of weigher.now) G (drop params args.now) label }
{
    match label {
        Label::Param => arg_at(args, params),
        _ => weigher.whole(counts, label, kids),
    }
}

// What an argument weighs, and 0 past the last one.
fn arg_at(args: &[u64; MOST_KIDS], param: usize) -> u64
    ensures { result ≡ get_or args.now param 0 }
{
    if param < MOST_KIDS { args[param] } else { 0 }
}

// How many parameters a node is: one or none.
pub(crate) fn params_of(label: Label) -> usize
    ensures { result ≡ params_at label }
{
    match label {
        Label::Param => 1,
        _ => 0,
    }
}
