// Counts that follow where a grammar was changed and most of its rules stayed.
ghost use Rattle.std.specs.Prelude.{◌≡◌, ◌<◌, ◌≤◌, ◌+◌, ◌-◌, ◌^◌, ℕ, List, drop, get_or, length, set, sum_by, IfSome};
ghost use Rattle.slt_grammar.specs.Grammars.{IsGrammar, IsSwept, value, value_at};
ghost use Rattle.slt_grammar.specs.declared.rules.Rule.{Rule};
ghost use Rattle.slt_grammar.specs.Keyed.{IsKeyed, rules_of};
ghost use Rattle.slt_grammar.specs.Segments.{preorder};
ghost use Rattle.segment_counts.specs.Changes.{IsRowOf};
ghost use Rattle.segment_counts.specs.Counting.{AreCounts, AreCountsBelow, no_row};
ghost use Rattle.segment_counts.specs.Following.{HaveRowsByNumber, HaveValuesByNumber};
ghost use Rattle.segment_counts.specs.Weights.{node_weight};

use crate::counting::tally_rule;
use crate::counts::Counts;
use plain_tree::Names;
use read_steps::Steps;
use slt_grammar::Grammar;
use std::marker::Brand;
use std::sync::ledger::{Blank, Ledger};

impl Counts {
    /// Makes the counts those of another grammar whose value is that of the grammar that was counted, by the numbers that rules keep for
    /// life: those of the rules `before` and `now`, each time in the rules' order. A rule whose number was there before keeps its row, and the
    /// others are counted. It takes no memory, and the room stays.
    ///
    /// The time goes by the rules, and by the bodies of those that are counted, where rules that stay keep their order and numbers of rules
    /// that came are above those before.
    pub fn follow(&mut self, grammar: &Grammar, names: &Names, before: &[usize], now: &[usize])
        requires swept { IsSwept (rules_of grammar.now.rules) }
        requires numbered { length now.now ≡ length grammar.now.rules }
        requires room { length before.now + length now.now ≤ length self.old.rows }
        requires same { (G : List Rule) × IsGrammar G × AreCounts names.now G self.old × (length before.now ≡ length G) × (value (rules_of grammar.now.rules) ≡ value G) × HaveValuesByNumber before.now now.now G (rules_of grammar.now.rules) }
        ensures counts { AreCounts names.now (rules_of grammar.now.rules) self.new }
        ensures room { length self.new.rows ≡ length self.old.rows }
    {
        // The call tells what is true of every grammar.
        let _limit = grammar.limit();
        let start = self.at(self.rules() - 1, 0);
        append_rows::<Brand>(grammar, names, self, before, now, Blank::new(1));
        self.forget_first(before.len());
        self.push(&[start]);
    }
}

// Puts the rows of the rules before the start behind those that were counted, on a counter of its own.
fn append_rows<L: Ledger>(
    grammar: &Grammar,
    names: &Names,
    counts: &mut Counts,
    before: &[usize],
    now: &[usize],
    blank: Blank,
)
    requires name { blank.name ≡ L.name }
    requires parts { blank.parts ≡ L.parts }
    requires some { 0 < blank.parts }
    requires numbered { length now.now ≡ length grammar.now.rules }
    requires counted { counts.old.rules ≡ length before.now }
    requires room { length before.now + length now.now ≤ length counts.old.rows }
    requires rows { HaveRowsByNumber names.now before.now now.now counts.old.rows (rules_of grammar.now.rules) }
    requires few { (q : ℕ) → q < length grammar.now.rules → sum_by node_weight (preorder (rules_of grammar.now.rules) q) < 2 ^ 63 }
    ensures counts { AreCountsBelow names.now (length now.now - 1) (rules_of grammar.now.rules) (drop (length before.now) counts.new.rows) }
    ensures rules { counts.new.rules ≡ length before.now + (length now.now - 1) }
    ensures room { length counts.new.rows ≡ length counts.old.rows }
{
    let mut steps: Steps<L> = Steps::new(blank);
    // The call tells what is true of every grammar.
    let _limit = grammar.limit();
    let most = most_of(before);
    let mut at = 0;
    for rule in 0..now.len().saturating_sub(1) {
        let kept = find_from(before, &mut at, most, now[rule]);
        append_row(grammar, names, counts, before.len(), rule, kept, &mut steps);
    }
}

// Puts the row of a rule behind the others: that of one whose value it has, if there is one, and else it is counted.
fn append_row<L: Ledger>(
    grammar: &Grammar,
    names: &Names,
    counts: &mut Counts,
    from: usize,
    rule: usize,
    kept: Option<usize>,
    steps: &mut Steps<L>,
)
    requires keyed { IsKeyed grammar.now }
    requires rule { rule < length grammar.now.rules }
    requires room { counts.old.rules < length counts.old.rows }
    requires kept { IfSome kept (λ p. (p < counts.old.rules) × IsRowOf names.now (value_at (rules_of grammar.now.rules) rule) (get_or counts.old.rows p no_row)) }
    requires counts { AreCountsBelow names.now rule (rules_of grammar.now.rules) (drop from counts.old.rows) }
    requires few { sum_by node_weight (preorder (rules_of grammar.now.rules) rule) < 2 ^ 63 }
    ensures row { IsRowOf names.now (value_at (rules_of grammar.now.rules) rule) (get_or counts.new.rows counts.old.rules no_row) }
    ensures rows { counts.new.rows ≡ set counts.old.rows counts.old.rules (get_or counts.new.rows counts.old.rules no_row) }
    ensures rules { counts.new.rules ≡ counts.old.rules + 1 }
{
    if let Some(place) = kept {
        counts.push_again(place);
        return;
    }
    let Some(tallies) = tally_rule(grammar, names, counts, from, rule, steps) else {
        unreachable!()
    };
    counts.push(tallies.row());
}

// Where a number stands before the last one, from a place on, which then goes behind it. Numbers above the greatest are not looked for.
fn find_from(numbers: &[usize], at: &mut usize, most: usize, number: usize) -> Option<usize>
    ensures within { IfSome result (λ p. p + 1 < length numbers.now) }
    ensures there { IfSome result (λ p. get_or numbers.now p 0 ≡ number) }
{
    if number > most {
        return None;
    }
    for place in *at..numbers.len().saturating_sub(1) {
        if numbers[place] == number {
            *at = place + 1;
            return Some(place);
        }
    }
    None
}

// The greatest of these numbers.
fn most_of(numbers: &[usize]) -> usize
    ensures { (i : ℕ) → i < length numbers.now → get_or numbers.now i 0 ≤ result }
{
    let mut most = 0;
    for number in numbers {
        most = most.max(*number);
    }
    most
}
