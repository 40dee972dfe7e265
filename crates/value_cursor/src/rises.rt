// How many nodes are open at once, over the rules.
ghost use Rattle.std.specs.Prelude.{◌≡◌, ◌<◌, ◌≤◌, ◌+◌, ◌^◌, ℕ, List, [], ◌∷◌, get_or, length, IfOk};
ghost use Rattle.slt_grammar.specs.Bodies.{CallsBelow};
ghost use Rattle.slt_grammar.specs.Grammars.{value};
ghost use Rattle.slt_grammar.specs.Keyed.{IsKeyed, rules_of};
ghost use Rattle.slt_grammar.specs.Segments.{listed, part_of, preorder, segment};
ghost use Rattle.slt_grammar.specs.declared.rules.Rule.{Rule};
ghost use Rattle.preorder_address.specs.Numberings.{AreCountsOf};
ghost use Rattle.value_cursor.specs.Cursors.{BeginsAtNode, left_of};
ghost use Rattle.value_cursor.specs.declared.cursor.Cursor.{Cursor};
ghost use Rattle.value_cursor.specs.Rises.{AreRises, IsOf, IsRise, Passes, RisesAtMost, risen};

use read_steps::Steps;
use segment_counts::Counts;
use slt_grammar::{Grammar, Label, TourWalk};
use std::alloc::{AllocError, Global};
use std::sync::ledger::Ledger;

// Of a rule of rank 8.
const MOST_SEGMENTS: usize = 9;

// What is known of labels that a walk passes: how many nodes they open, how many they close, and how many more are open at most
// than before them.
#[derive(Clone, Copy, Drop)]
pub(crate) struct Passed {
    pub(crate) opened: u64,
    pub(crate) closed: u64,
    pub(crate) rise: u64,
}

// The rises of a rule's segments so far, the segment in which the tour stands, and how many nodes were opened and closed in it.
#[derive(Clone, Copy, Drop)]
pub(crate) struct Rising {
    pub(crate) most: [u64; MOST_SEGMENTS],
    pub(crate) at: usize,
    pub(crate) opened: u64,
    pub(crate) closed: u64,
}

/// How many nodes are open at once at most while a cursor gives the tokens of the whole value: the least number that is enough. It is
/// enough for the tokens of any other node too. One pass over the rules; it fails only where memory is refused.
pub fn most_open<L: Ledger>(
    alloc: Global,
    grammar: &Grammar,
    counts: &Counts,
    steps: &mut Steps<L>,
) -> Result<usize, AllocError>
    requires { AreCountsOf (rules_of grammar.now.rules) counts.now }
    ensures bound { IfOk result (λ most. RisesAtMost most (listed (value (rules_of grammar.now.rules)) [])) }
    ensures least { IfOk result (λ most. (m : ℕ) → RisesAtMost m (listed (value (rules_of grammar.now.rules)) []) → most ≤ m) }
    ensures cursors { IfOk result (λ most. (number : ℕ) (cursor : Cursor) → BeginsAtNode grammar.now.rules number cursor → RisesAtMost most (left_of grammar.now.rules cursor)) }
{
    // The call tells what is true of every grammar.
    let _limit = grammar.limit();
    let rules = grammar.rules();
    let mut rows = Vec::with_capacity(alloc, rules)?;
    for rule in 0..rules {
        let row = rises_of(grammar, counts, rows.as_slice(), rule, steps);
        rows.push(row)?;
    }
    Ok(rise_at(rows.as_slice(), rules - 1, 0) as usize)
}

// The rises of a rule's segments, by those of the rules before it.
fn rises_of<L: Ledger>(
    grammar: &Grammar,
    counts: &Counts,
    rows: &[[u64; MOST_SEGMENTS]],
    rule: usize,
    steps: &mut Steps<L>,
) -> [u64; MOST_SEGMENTS]
    requires keyed { IsKeyed grammar.now }
    requires counts { AreCountsOf (rules_of grammar.now.rules) counts.now }
    requires rule { rule < length grammar.now.rules }
    requires rows { AreRises rule (rules_of grammar.now.rules) rows.now }
    ensures { (i : ℕ) → IsRise (get_or result i 0) (segment i (preorder (rules_of grammar.now.rules) rule)) }
{
    let mut walk = TourWalk::new(grammar, rule);
    let mut rising = Rising::new();
    'stops: loop {
        let site = grammar.site(walk.key, steps);
        let passed = passed_at(counts, rows, site.label, walk.part);
        rising.pass(site.label, passed);
        if !walk.advance(grammar, &site, steps) {
            return rising.most;
        }
    }
}

// What is known of the labels for which a part of a node stands.
fn passed_at(counts: &Counts, rows: &[[u64; MOST_SEGMENTS]], label: Label, part: usize) -> Passed
    ensures { (k : ℕ) (G : List Rule) → k ≤ length G → AreCountsOf G counts.now → AreRises k G rows.now → CallsBelow k (label ∷ [])
        → IsOf result (part_of G label part) }
{
    match (label, part) {
        (Label::Call(rule), _) => {
            let nodes = counts.nodes(rule, part);
            Passed {
                opened: nodes,
                closed: counts.all(rule, part).saturating_sub(nodes),
                rise: rise_at(rows, rule, part),
            }
        }
        (Label::Symbol(_), 0) => Passed {
            opened: 1,
            closed: 0,
            rise: 1,
        },
        (Label::Bottom, 0) => Passed {
            opened: 0,
            closed: 1,
            rise: 0,
        },
        _ => Passed {
            opened: 0,
            closed: 0,
            rise: 0,
        },
    }
}

// The number that is kept of a rule's segment, and 0 where there is no such segment.
fn rise_at(rows: &[[u64; MOST_SEGMENTS]], rule: usize, segment: usize) -> u64
    ensures { result ≡ risen rows.now rule segment }
{
    if rule < rows.len() && segment < MOST_SEGMENTS {
        rows[rule][segment]
    } else {
        0
    }
}

impl Rising {
    fn new() -> Rising
        ensures most { (i : ℕ) → get_or result.most i 0 ≡ 0 }
        ensures width { length result.most ≡ 9 }
        ensures at { result.at ≡ 0 }
        ensures opened { result.opened ≡ 0 }
        ensures closed { result.closed ≡ 0 }
    {
        Rising {
            most: [0; MOST_SEGMENTS],
            at: 0,
            opened: 0,
            closed: 0,
        }
    }

    // Takes in the labels of a stop.
    fn pass(&mut self, label: Label, passed: Passed)
        requires at { self.old.at < 9 }
        requires rise { self.old.opened + passed.rise < 2 ^ 64 }
        requires opened { self.old.opened + passed.opened < 2 ^ 64 }
        requires closed { self.old.closed + passed.closed < 2 ^ 64 }
        ensures { Passes label passed self.old self.new }
    {
        if let Label::Param = label {
            self.at += 1;
            self.opened = 0;
            self.closed = 0;
            return;
        }
        let high = (self.opened + passed.rise).saturating_sub(self.closed);
        self.most[self.at] = self.most[self.at].max(high);
        self.opened += passed.opened;
        self.closed += passed.closed;
    }
}
