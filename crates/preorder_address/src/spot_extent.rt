// How many nodes are below a spot's node, level by level from the last one up.
ghost use Rattle.std.specs.Prelude.{◌≡◌, ℕ, ◌<◌, ◌≤◌, ◌+◌, ◌*◌, ◌^◌, List, Some, length, slice_get, sum, take};
ghost use Rattle.plain_tree.specs.declared.kind.Kind.{Kind};
ghost use Rattle.plain_tree.specs.Tree.{Tree, none, more};
ghost use Rattle.rule_arena.specs.Terms.{Node};
ghost use Rattle.slt_grammar.specs.Bodies.{params};
ghost use Rattle.slt_grammar.specs.Coding.{Codes};
ghost use Rattle.slt_grammar.specs.Grammars.{value, whole};
ghost use Rattle.slt_grammar.specs.Keyed.{IsKeyed, key_at, nodes_at, rules_of};
ghost use Rattle.slt_grammar.specs.Segments.{node_tour, preorder};
ghost use Rattle.preorder_address.specs.Numberings.{AreCountsOf};
ghost use Rattle.preorder_address.specs.Ranges.{WeighsRange};
ghost use Rattle.preorder_address.specs.Sites.{labels_before};
ghost use Rattle.preorder_address.specs.Spots.{IsSpot};
ghost use Rattle.preorder_address.specs.TreeNumbers.{extent_at};
ghost use Rattle.preorder_address.specs.Weighing.{params_at};

use crate::site::{MOST_KIDS, first_kid_weights, pass_to};
use crate::spot::{Spot, level_at};
use crate::weigher::Weigher;
use read_steps::Steps;
use segment_counts::Counts;
use slt_grammar::{Grammar, Key};
use std::sync::ledger::Ledger;

// Some of a node's kids, or of a rule's parameters, one after another.
#[derive(Clone, Copy, Drop)]
pub(crate) struct KidRange {
    pub(crate) first: usize,
    pub(crate) count: usize,
}

// How many nodes some kids have without their parameters, and which of the rule's parameters stand there.
#[derive(Clone, Copy, Drop)]
pub(crate) struct RangeWeight {
    pub(crate) nodes: u64,
    pub(crate) params: KidRange,
}

impl Spot {
    /// How many nodes are below the node, over the rules and counts over which the spot was found. Of the start rule it reads only
    /// what stands below the node of its level. At most eight steps for each node of the bodies.
    pub fn extent<L: Ledger>(&self, grammar: &Grammar, counts: &Counts, steps: &mut Steps<L>) -> u64
        requires counts { AreCountsOf (rules_of grammar.now.rules) counts.now }
        requires spot { (names : List (Kind × List ℕ)) × (number : ℕ) × IsSpot names grammar.now.rules number self.now }
        ensures extent { (names : List (Kind × List ℕ)) (number : ℕ) (t : Tree) → IsSpot names grammar.now.rules number self.now
            → Codes names (more t none) (value (rules_of grammar.now.rules)) → Some result ≡ extent_at t number }
        ensures steps { steps.new ≤ steps.old + 8 * whole (rules_of grammar.now.rules) }
    {
        // The call tells what is true of every grammar.
        let _limit = grammar.limit();
        let levels = self.levels.as_slice();
        let mut below = 0;
        let mut range = KidRange { first: 0, count: 1 };
        let mut left = levels.len();
        while left > 0 {
            if range.count == 0 {
                return below;
            }
            left -= 1;
            let Some(level) = level_at(levels, left) else {
                unreachable!()
            };
            let weight = range_weight(grammar, counts, level.rule, level.key, range, steps);
            below += weight.nodes;
            range = weight.params;
        }
        below
    }
}

// The weight of some kids of a node of a rule's body.
fn range_weight<L: Ledger>(
    grammar: &Grammar,
    counts: &Counts,
    rule: usize,
    key: Key,
    range: KidRange,
    steps: &mut Steps<L>,
) -> RangeWeight
    requires keyed { IsKeyed grammar.now }
    requires counts { AreCountsOf (rules_of grammar.now.rules) counts.now }
    requires there { (p : ℕ) × (x : Node) × (slice_get (nodes_at grammar.now.rules rule) p ≡ Some x) × (x.key ≡ key) × (params_at x.label ≡ 0)
        × (range.first + range.count ≤ x.kids) }
    ensures weight { (p : ℕ) (x : Node) → slice_get (nodes_at grammar.now.rules rule) p ≡ Some x → x.key ≡ key
        → WeighsRange grammar.now.rules rule p x range result }
    ensures steps { steps.new ≤ steps.old + 8 * length (nodes_at grammar.now.rules rule) }
{
    if grammar.rank(rule) == 0 {
        return closed_range_weight(grammar, counts, rule, key, range, steps);
    }
    let end = range.first + range.count;
    let no_args = [0; MOST_KIDS];
    let one_args = [1; MOST_KIDS];
    let weights = first_kid_weights(
        grammar,
        counts,
        &Weigher::Nodes,
        key,
        end,
        0,
        &no_args,
        steps,
    );
    // Where each argument has one node, a kid has one more for each parameter.
    let counted = first_kid_weights(
        grammar,
        counts,
        &Weigher::Nodes,
        key,
        end,
        0,
        &one_args,
        steps,
    );
    let skipped = sum_of(&weights, range.first);
    let nodes = sum_of(&weights, end);
    let params_skipped = sum_of(&counted, range.first) - skipped;
    let params_passed = sum_of(&counted, end) - nodes;
    let before = params_before(grammar, counts, rule, key, steps);
    RangeWeight {
        nodes: nodes - skipped,
        params: KidRange {
            first: before + params_skipped as usize,
            count: (params_passed - params_skipped) as usize,
        },
    }
}

// The same in a rule that has no parameters, as the start, where the kids are read once.
fn closed_range_weight<L: Ledger>(
    grammar: &Grammar,
    counts: &Counts,
    rule: usize,
    key: Key,
    range: KidRange,
    steps: &mut Steps<L>,
) -> RangeWeight
    requires keyed { IsKeyed grammar.now }
    requires counts { AreCountsOf (rules_of grammar.now.rules) counts.now }
    requires there { (p : ℕ) × (x : Node) × (slice_get (nodes_at grammar.now.rules rule) p ≡ Some x) × (x.key ≡ key) × (params_at x.label ≡ 0)
        × (range.first + range.count ≤ x.kids) }
    requires closed { params (preorder (rules_of grammar.now.rules) rule) ≡ 0 }
    ensures weight { (p : ℕ) (x : Node) → slice_get (nodes_at grammar.now.rules rule) p ≡ Some x → x.key ≡ key
        → WeighsRange grammar.now.rules rule p x range result }
    ensures steps { steps.new ≤ steps.old + 8 * length (nodes_at grammar.now.rules rule) }
{
    let end = range.first + range.count;
    let no_args = [0; MOST_KIDS];
    let weights = first_kid_weights(
        grammar,
        counts,
        &Weigher::Nodes,
        key,
        end,
        0,
        &no_args,
        steps,
    );
    let skipped = sum_of(&weights, range.first);
    let nodes = sum_of(&weights, end);
    RangeWeight {
        nodes: nodes - skipped,
        params: KidRange { first: 0, count: 0 },
    }
}

// How many parameters stand before a node of a rule's body.
fn params_before<L: Ledger>(
    grammar: &Grammar,
    counts: &Counts,
    rule: usize,
    key: Key,
    steps: &mut Steps<L>,
) -> usize
    requires keyed { IsKeyed grammar.now }
    requires counts { AreCountsOf (rules_of grammar.now.rules) counts.now }
    requires there { (p : ℕ) × (key_at grammar.now.rules rule p ≡ Some key) }
    ensures params { (p : ℕ) → key_at grammar.now.rules rule p ≡ Some key → result ≡ params (labels_before grammar.now.rules rule p) }
    ensures few { result < 9 }
    ensures steps { steps.new ≤ steps.old + 2 * length (node_tour grammar.now.rules rule) }
{
    if grammar.rank(rule) == 0 {
        return 0;
    }
    let no_args = [0; MOST_KIDS];
    pass_to(grammar, counts, &Weigher::Nodes, rule, key, &no_args, steps).params
}

// The first of these weights together.
fn sum_of(weights: &[u64; MOST_KIDS], count: usize) -> u64
    requires few { count ≤ 8 }
    requires small { sum (take count weights.now) < 2 ^ 64 }
    ensures { result ≡ sum (take count weights.now) }
{
    let mut sum = 0;
    for kid in 0..count {
        sum += weights[kid];
    }
    sum
}
