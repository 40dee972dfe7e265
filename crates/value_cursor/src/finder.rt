// A search for nodes by their numbers.
ghost use Rattle.std.specs.Prelude.{◌≡◌, ◌↔◌, ◌<◌, ◌≤◌, ◌++◌, ℕ, List, [], ◌∷◌, length, sum_by, Some, vec_capacity, IfOk, IsFalse, IsTrue};
ghost use Rattle.std.specs.Option.{option_to_list};
ghost use Rattle.plain_tree.specs.declared.kind.Kind.{Kind};
ghost use Rattle.plain_tree.specs.Tree.{Tree, none, more};
ghost use Rattle.slt_grammar.specs.Coding.{Codes};
ghost use Rattle.slt_grammar.specs.Grammars.{value};
ghost use Rattle.slt_grammar.specs.Keyed.{IsKeyed, KeyedRule, rules_of};
ghost use Rattle.slt_grammar.specs.Segments.{listed, part_of, segment};
ghost use Rattle.segment_counts.specs.Counting.{AreCounts};
ghost use Rattle.segment_counts.specs.Weights.{node_weight};
ghost use Rattle.preorder_address.specs.TreeNumbers.{text_rank_at};
ghost use Rattle.value_cursor.specs.Cursors.{found, left_at};
ghost use Rattle.value_cursor.specs.Finders.{IsSearch, StandsAtNode};
ghost use Rattle.value_cursor.specs.Stops.{AreStops, IsSiteOf};
ghost use Rattle.value_cursor.specs.Work.{work_at};

use crate::cursor::{enter, leave, skip};
use plain_tree::Names;
use preorder_address::RuleStop;
use read_steps::Steps;
use segment_counts::{Counts, Weights};
use slt_grammar::{Grammar, Label, Site, TourWalk};
use std::alloc::{AllocError, Global};
use std::sync::ledger::Ledger;

const NO_WEIGHTS: Weights = Weights {
    nodes: 0,
    texts: 0,
    all: 0,
};

/// A search along a grammar's value for nodes by their numbers. From one number to a greater one it goes on from where it stands.
#[derive(Drop)]
pub struct Finder {
    // The stop whose labels come next.
    pub(crate) here: RuleStop,
    // The stops at the calls that lead to its rule, the outermost first.
    pub(crate) calls: Vec<RuleStop>,
    // What the labels before weigh.
    pub(crate) passed: Weights,
}

impl Finder {
    /// A search that stands where the value begins. It takes all the memory that it ever needs.
    pub fn new(alloc: Global, grammar: &Grammar) -> Result<Finder, AllocError>
        ensures { IfOk result (λ finder. (names : List (Kind × List ℕ)) → IsSearch names grammar.now.rules finder) }
    {
        // The call tells what is true of every grammar.
        let _limit = grammar.limit();
        let rules = grammar.rules();
        let calls = Vec::with_capacity(alloc, rules)?;
        Ok(Finder {
            here: first_stop(grammar),
            calls,
            passed: NO_WEIGHTS,
        })
    }

    /// Goes to the node with this number, and answers false exactly where the number isn't below the total. It goes on from where it
    /// stands, and begins anew where it stands behind the node. `counts` are by `names`.
    pub fn go_to<L: Ledger>(
        &mut self,
        grammar: &Grammar,
        counts: &Counts,
        names: &Names,
        number: u64,
        steps: &mut Steps<L>,
    ) -> bool
        requires counts { AreCounts names.now (rules_of grammar.now.rules) counts.now }
        requires search { IsSearch names.now grammar.now.rules self.old }
        ensures search { IsSearch names.now grammar.now.rules self.new }
        ensures some { IsTrue result ↔ number < sum_by node_weight (listed (value (rules_of grammar.now.rules)) []) }
        ensures stands { IsTrue result → StandsAtNode names.now grammar.now.rules number self.new }
    {
        // The call tells what is true of every grammar.
        let _limit = grammar.limit();
        if number >= counts.total() {
            return false;
        }
        if number < self.passed.nodes {
            self.begin_anew(grammar);
        }
        while self.go_nearer(grammar, counts, names, number, steps) {}
        true
    }

    /// How many values belong to nodes before the one where it stands.
    pub fn texts(&self) -> u64
        ensures { (names : List (Kind × List ℕ)) (G : List KeyedRule) (number : ℕ) (t : Tree) → StandsAtNode names G number self.now → Codes names (more t none) (value (rules_of G))
            → Some result ≡ text_rank_at t number }
    {
        self.passed.texts
    }

    // Goes back to where the value begins.
    fn begin_anew(&mut self, grammar: &Grammar)
        requires keyed { IsKeyed grammar.now }
        requires room { length grammar.now.rules ≤ vec_capacity self.old.calls }
        ensures search { (names : List (Kind × List ℕ)) → IsSearch names grammar.now.rules self.new }
        ensures passed { self.new.passed.nodes ≡ 0 }
    {
        self.here = first_stop(grammar);
        self.calls.clear();
        self.passed = NO_WEIGHTS;
    }

    // Goes past what comes before the node with this number, or into the call around it, and answers false where it stands there. As
    // long as the number is below the total, there is a stop behind what it passes.
    fn go_nearer<L: Ledger>(
        &mut self,
        grammar: &Grammar,
        counts: &Counts,
        names: &Names,
        number: u64,
        steps: &mut Steps<L>,
    ) -> bool
        requires keyed { IsKeyed grammar.now }
        requires counts { AreCounts names.now (rules_of grammar.now.rules) counts.now }
        requires search { IsSearch names.now grammar.now.rules self.old }
        requires before { self.old.passed.nodes ≤ number }
        requires some { number < sum_by node_weight (listed (value (rules_of grammar.now.rules)) []) }
        ensures search { IsSearch names.now grammar.now.rules self.new }
        ensures before { self.new.passed.nodes ≤ number }
        ensures stands { IsFalse result → StandsAtNode names.now grammar.now.rules number self.new }
        ensures work { IsTrue result → work_at grammar.now.rules (Some self.new.here) self.new.calls.items < work_at grammar.now.rules (Some self.old.here) self.old.calls.items }
    {
        let site = grammar.site(self.here.walk.key, steps);
        let weights = counts.weights(names, site.label, self.here.walk.part);
        if weights.nodes <= number - self.passed.nodes {
            self.passed = self.passed.plus(weights);
            return go_past(&mut self.here, &mut self.calls, grammar, &site, steps);
        }
        match site.label {
            Label::Call(rule) => enter(&mut self.here, &mut self.calls, grammar, rule, steps),
            _ => false,
        }
    }
}

// The first stop of the value.
fn first_stop(grammar: &Grammar) -> RuleStop
    requires keyed { IsKeyed grammar.now }
    ensures stops { AreStops grammar.now.rules (length grammar.now.rules) (result ∷ []) }
    ensures whole { left_at grammar.now.rules (Some result) [] ≡ listed (value (rules_of grammar.now.rules)) [] }
{
    let rule = grammar.rules() - 1;
    RuleStop {
        rule,
        walk: TourWalk::new(grammar, rule),
    }
}

// Goes past what a stop stands for, and answers whether there is a stop then.
fn go_past<L: Ledger>(
    here: &mut RuleStop,
    calls: &mut Vec<RuleStop>,
    grammar: &Grammar,
    site: &Site,
    steps: &mut Steps<L>,
) -> bool
    requires keyed { IsKeyed grammar.now }
    requires stops { AreStops grammar.now.rules (length grammar.now.rules) (calls.old.items ++ here.old ∷ []) }
    requires site { IsSiteOf grammar.now.rules here.old site.now }
    ensures left { left_at grammar.now.rules (Some here.old) calls.old.items
        ≡ segment 0 (part_of (rules_of grammar.now.rules) site.now.label here.old.walk.part) ++ left_at grammar.now.rules (found result here.new) calls.new.items }
    ensures stops { AreStops grammar.now.rules (length grammar.now.rules) (calls.new.items ++ option_to_list (found result here.new)) }
    ensures room { vec_capacity calls.new ≡ vec_capacity calls.old }
    ensures work { work_at grammar.now.rules (found result here.new) calls.new.items < work_at grammar.now.rules (Some here.old) calls.old.items }
{
    if let Label::Param = site.label {
        // It ends what its rule's segment stands for.
        return leave(here, calls, grammar, steps);
    }
    if here.rule == 0 {
        return skip(here, calls, grammar, steps);
    }
    if here.walk.advance(grammar, site, steps) {
        return true;
    }
    leave(here, calls, grammar, steps)
}
