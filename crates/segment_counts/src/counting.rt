// Counting along the tours of the bodies.
ghost use Rattle.std.specs.Prelude.{◌≡◌, ◌<◌, ◌≤◌, ◌*◌, ◌-◌, ◌^◌, ℕ, List, [], drop, length, get_or, set, sum_by, IfOk, IfSome, IfNone, Err, OnOk, true, false};
ghost use Rattle.slt_grammar.specs.Grammars.{IsGrammar, IsSwept, value};
ghost use Rattle.slt_grammar.specs.declared.rules.Rule.{Rule};
ghost use Rattle.slt_grammar.specs.Keyed.{IsKeyed, rules_of};
ghost use Rattle.slt_grammar.specs.Segments.{listed, preorder};
ghost use Rattle.segment_counts.specs.Counting.{AreCounts, AreCountsBelow, no_row, no_weights, weight_by};
ghost use Rattle.segment_counts.specs.Tallies.{row_of};
ghost use Rattle.segment_counts.specs.Weights.{weigh, count, node_weight};
ghost use Rattle.segment_counts.specs.declared.counts.Measure.{Measure};

use crate::counts::{Counts, MOST_SEGMENTS};
use crate::tally::Tallies;
use plain_tree::Names;
use read_steps::Steps;
use slt_grammar::{Grammar, TourWalk};
use std::alloc::Global;
use std::marker::Brand;
use std::sync::ledger::{Blank, Ledger};
use thiserror::Error;

/// Why the counts weren't made.
#[derive(Clone, Copy, Debug, PartialEq, Eq, Error)]
pub enum CountError {
    /// The grammar's value has more than 2^63 - 1 nodes that aren't bottom.
    #[error("the value of the grammar has more than 2^63 - 1 nodes")]
    TooMany,
    /// Memory was refused, or so many rules might have 2^32 segments or more.
    #[error("there is no memory for the counts")]
    Memory,
}

impl Counts {
    /// The counts of a swept grammar, with room for its rules. A symbol that isn't in `names` has no text.
    ///
    /// `TooMany` comes exactly where the grammar's value has more than 2^63 - 1 nodes that aren't bottom, and `Memory` only where memory
    /// is refused, or where so many rules might have 2^32 segments or more, nine a rule.
    pub fn new(alloc: Global, grammar: &Grammar, names: &Names) -> Result<Counts, CountError>
        requires swept { IsSwept (rules_of grammar.now.rules) }
        ensures counts { IfOk result (AreCounts names.now (rules_of grammar.now.rules)) }
        ensures few { OnOk result (sum_by node_weight (listed (value (rules_of grammar.now.rules)) []) < 2 ^ 63) }
        ensures many { result ≡ Err CountError.TooMany → 2 ^ 63 ≤ sum_by node_weight (listed (value (rules_of grammar.now.rules)) []) }
        ensures segments { OnOk result (9 * length grammar.now.rules < 2 ^ 32) }
    {
        let mut counts = Counts::empty(alloc);
        let rules = grammar.rules();
        let Ok(()) = counts.reserve(rules) else {
            return Err(CountError::Memory);
        };
        if count_first::<Brand>(grammar, names, &mut counts, rules, Blank::new(1)) {
            Ok(counts)
        } else {
            Err(CountError::TooMany)
        }
    }

    /// Makes the counts those of another grammar, for whose rules there is room and whose value is that of the grammar that was counted. So
    /// the start's row stays. It takes no memory, and the room stays.
    pub fn update(&mut self, grammar: &Grammar, names: &Names)
        requires swept { IsSwept (rules_of grammar.now.rules) }
        requires room { length grammar.now.rules ≤ length self.old.rows }
        requires same { (G : List Rule) × IsGrammar G × AreCounts names.now G self.old × (value (rules_of grammar.now.rules) ≡ value G) }
        ensures counts { AreCounts names.now (rules_of grammar.now.rules) self.new }
        ensures room { length self.new.rows ≡ length self.old.rows }
    {
        let start = self.at(self.rules() - 1, 0);
        let before = grammar.rules() - 1;
        if !count_first::<Brand>(grammar, names, self, before, Blank::new(1)) {
            unreachable!()
        }
        self.push(&[start]);
    }
}

// Counts the first so many rules on a counter of its own, and answers false where the value of one has too many nodes.
fn count_first<L: Ledger>(
    grammar: &Grammar,
    names: &Names,
    counts: &mut Counts,
    rules: usize,
    blank: Blank,
) -> bool
    requires within { rules ≤ length grammar.now.rules }
    requires room { rules ≤ length counts.old.rows }
    requires name { blank.name ≡ L.name }
    requires parts { blank.parts ≡ L.parts }
    requires some { 0 < blank.parts }
    ensures counts { result ≡ true → AreCountsBelow names.now rules (rules_of grammar.now.rules) counts.new.rows }
    ensures rules { result ≡ true → counts.new.rules ≡ rules }
    ensures many { result ≡ false → (q : ℕ) × (q < rules) × (2 ^ 63 ≤ sum_by node_weight (preorder (rules_of grammar.now.rules) q)) }
    ensures room { length counts.new.rows ≡ length counts.old.rows }
{
    let mut steps: Steps<L> = Steps::new(blank);
    // The call tells what is true of every grammar.
    let _limit = grammar.limit();
    counts.clear();
    for rule in 0..rules {
        match tally_rule(grammar, names, counts, 0, rule, &mut steps) {
            Some(tallies) => counts.push(tallies.row()),
            None => return false,
        }
    }
    true
}

// The numbers of a rule's segments, and None where its value has too many nodes. The rows of the rules before it begin behind so many others.
pub(crate) fn tally_rule<L: Ledger>(
    grammar: &Grammar,
    names: &Names,
    counts: &Counts,
    from: usize,
    rule: usize,
    steps: &mut Steps<L>,
) -> Option<Tallies>
    requires keyed { IsKeyed grammar.now }
    requires counts { AreCountsBelow names.now rule (rules_of grammar.now.rules) (drop from counts.now.rows) }
    requires rule { rule < length grammar.now.rules }
    ensures place { IfSome result (λ tallies. tallies.at < MOST_SEGMENTS) }
    ensures row { IfSome result (λ tallies. (m : Measure) (i : ℕ) → weight_by m (get_or (row_of tallies) i no_weights) ≡ count (weigh names.now m) (rules_of grammar.now.rules) rule i) }
    ensures few { IfSome result (λ tallies. sum_by node_weight (preorder (rules_of grammar.now.rules) rule) < 2 ^ 63) }
    ensures many { IfNone result (2 ^ 63 ≤ sum_by node_weight (preorder (rules_of grammar.now.rules) rule)) }
{
    let mut walk = TourWalk::new(grammar, rule);
    let mut tallies = Tallies::new();
    'stops: loop {
        let site = grammar.site(walk.key, steps);
        let weights = counts.weights_behind(names, from, site.label, walk.part);
        if !tallies.add(site.label, weights) {
            return None;
        }
        if !walk.advance(grammar, &site, steps) {
            return Some(tallies);
        }
    }
}
