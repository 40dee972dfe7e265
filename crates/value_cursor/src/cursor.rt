// A cursor over a subtree's tokens.
ghost use Rattle.std.specs.Prelude.{◌≡◌, ◌↔◌, ℕ, ◌<◌, ◌≤◌, ◌-◌, ◌++◌, List, [], ◌∷◌, drop, length, sum_by, vec_capacity, Some, None, IsSome, IfNone, IfSome, IfOk, nat_lt, if◌then◌else◌};
ghost use Rattle.std.specs.Option.{option_to_list};
ghost use Rattle.plain_tree.specs.declared.kind.Kind.{Kind};
ghost use Rattle.slt_grammar.specs.Grammars.{value};
ghost use Rattle.slt_grammar.specs.Keyed.{IsKeyed, KeyedRule, rules_of};
ghost use Rattle.slt_grammar.specs.Segments.{listed};
ghost use Rattle.segment_counts.specs.Weights.{node_weight};
ghost use Rattle.preorder_address.specs.Numberings.{AreCountsOf};
ghost use Rattle.value_cursor.specs.Cursors.{BeginsAtNode, Given, IsInside, IsStanding, found, left_at, left_of, tokens_of};
ghost use Rattle.value_cursor.specs.Finders.{StandsAtNode};
ghost use Rattle.value_cursor.specs.Kept.{AreKept, GivenLeft, again_of, label_of, labels_of};
ghost use Rattle.value_cursor.specs.Tokens.{tokens};
ghost use Rattle.value_cursor.specs.Stops.{AreStops, IsSilent, IsLabelOf, behind, segment_left, stops_of};
ghost use Rattle.value_cursor.specs.Work.{work_at};

use crate::entering::segment_start;
use crate::finder::Finder;
use crate::kept::KeptSegments;
use preorder_address::{RuleStop, locate};
use read_steps::Steps;
use segment_counts::Counts;
use slt_grammar::{Grammar, Label};
use std::alloc::{AllocError, Global};
use std::sync::ledger::Ledger;

/// A token of a subtree.
#[derive(Clone, Copy, PartialEq, Eq, Drop)]
pub enum Token {
    /// A node begins; its kids follow.
    Open { symbol: usize },
    /// The node that was opened last, of those that are open, ends.
    Close,
}

/// The tokens of a node's subtree, one after another.
#[derive(Drop)]
pub struct Cursor {
    // The stop whose labels come next, and None where all tokens were given.
    pub(crate) here: Option<RuleStop>,
    // The stops at the calls that lead to its rule, the outermost first.
    pub(crate) calls: Vec<RuleStop>,
    // How many nodes are open.
    pub(crate) opened: u64,
    // The segments that were told already, and what is told again before the stop.
    pub(crate) kept: KeptSegments,
}

impl Cursor {
    /// A cursor before the node with this number, and None exactly where the number isn't below the total. It takes all the memory
    /// that the cursor ever needs.
    pub fn new<L: Ledger>(
        alloc: Global,
        grammar: &Grammar,
        counts: &Counts,
        number: u64,
        steps: &mut Steps<L>,
    ) -> Result<Option<Cursor>, AllocError>
        requires { AreCountsOf (rules_of grammar.now.rules) counts.now }
        ensures some { IfOk result (λ found. IsSome found ↔ number < sum_by node_weight (listed (value (rules_of grammar.now.rules)) [])) }
        ensures inside { IfOk result (λ found. IfSome found (IsInside grammar.now.rules)) }
        ensures begins { IfOk result (λ found. IfSome found (BeginsAtNode grammar.now.rules number)) }
    {
        // The call tells what is true of every grammar.
        let _limit = grammar.limit();
        let Some(mut descent) = locate(counts, number) else {
            return Ok(None);
        };
        let rules = grammar.rules();
        let mut calls = Vec::with_capacity(alloc, rules)?;
        while let Some(stop) = descent.next_stop(grammar, counts, steps) {
            calls.push(stop)?;
        }
        let here = calls.pop();
        let kept = KeptSegments::new(alloc, rules)?;
        Ok(Some(Cursor {
            here,
            calls,
            opened: 0,
            kept,
        }))
    }

    /// Gives the tokens of the node at which the search stands from now on, whatever it gave before. It takes no memory.
    pub fn begin(&mut self, finder: &Finder)
        requires { (names : List (Kind × List ℕ)) × (G : List KeyedRule) × (number : ℕ) × IsInside G self.old × StandsAtNode names G number finder.now }
        ensures inside { (names : List (Kind × List ℕ)) (G : List KeyedRule) (number : ℕ) → IsInside G self.old → StandsAtNode names G number finder.now → IsInside G self.new }
        ensures begins { (names : List (Kind × List ℕ)) (G : List KeyedRule) (number : ℕ) → StandsAtNode names G number finder.now → BeginsAtNode G number self.new }
    {
        self.here = Some(finder.here);
        self.calls.clear();
        // There is room for a stop of each rule.
        self.calls
            .extend_from_slice(finder.calls.as_slice())
            .unwrap();
        self.opened = 0;
        self.kept.forget();
    }

    /// The next token, and None where all were given. It takes no memory.
    pub fn next<L: Ledger>(&mut self, grammar: &Grammar, steps: &mut Steps<L>) -> Option<Token>
        requires { IsInside grammar.now.rules self.old }
        ensures token { Given result (tokens_of grammar.now.rules self.old) (tokens_of grammar.now.rules self.new) }
        ensures inside { IsInside grammar.now.rules self.new }
    {
        // The call tells what is true of every grammar.
        let _limit = grammar.limit();
        let token = self.next_left(grammar, steps)?;
        match token {
            Token::Open { .. } => self.opened += 1,
            Token::Close => self.close(),
        }
        Some(token)
    }

    // The next token of what is left, before it is counted.
    fn next_left<L: Ledger>(&mut self, grammar: &Grammar, steps: &mut Steps<L>) -> Option<Token>
        requires keyed { IsKeyed grammar.now }
        requires standing { IsStanding grammar.now.rules self.old }
        ensures token { GivenLeft result (left_of grammar.now.rules self.old) (left_of grammar.now.rules self.new) }
        ensures standing { IsStanding grammar.now.rules self.new }
        ensures opened { self.new.opened ≡ self.old.opened }
    {
        if let Some(token) = self.kept.next() {
            return Some(token);
        }
        while let Some(here) = &mut self.here {
            let label = grammar.label(here.walk.key, steps);
            if let Some(token) = token_at(label, here.walk.part) {
                let there = pass(here, &mut self.calls, grammar, steps);
                self.keep_stop(there);
                return Some(token);
            }
            let there = tell_again(here, &mut self.calls, &mut self.kept, grammar, label, steps);
            self.keep_stop(there);
            if let Some(token) = self.kept.next() {
                return Some(token);
            }
        }
        None
    }

    // A node ends. Where that was opened first, nothing is left.
    fn close(&mut self)
        ensures tokens { (G : List KeyedRule) → tokens_of G self.new ≡ (if nat_lt 1 self.old.opened then tokens (self.old.opened - 1) (left_of G self.old) else []) }
        ensures inside { (G : List KeyedRule) → IsInside G self.old → IsInside G self.new }
    {
        if self.opened > 1 {
            self.opened -= 1;
        } else {
            self.here = None;
            self.kept.forget();
        }
    }

    // Forgets the stop where there is none any more.
    fn keep_stop(&mut self, there: bool)
        ensures here { self.new.here ≡ (if there then self.old.here else None) }
        ensures calls { self.new.calls.items ≡ self.old.calls.items }
        ensures room { vec_capacity self.new.calls ≡ vec_capacity self.old.calls }
        ensures opened { self.new.opened ≡ self.old.opened }
        ensures kept { self.new.kept ≡ self.old.kept }
    {
        if !there {
            self.here = None;
        }
    }
}

// The token of a stop, and None where it gives none.
pub(crate) fn token_at(label: Label, part: usize) -> Option<Token>
    ensures some { IfSome result (λ t. (label ≡ label_of t) × (part ≡ 0)) }
    ensures none { IfNone result (IsSilent label part) }
{
    match (label, part) {
        (Label::Symbol(symbol), 0) => Some(Token::Open { symbol }),
        (Label::Bottom, 0) => Some(Token::Close),
        _ => None,
    }
}

// Goes on from a stop that gives no token. A called segment that is kept is told again behind it.
fn tell_again<L: Ledger>(
    here: &mut RuleStop,
    calls: &mut Vec<RuleStop>,
    kept: &mut KeptSegments,
    grammar: &Grammar,
    label: Label,
    steps: &mut Steps<L>,
) -> bool
    requires keyed { IsKeyed grammar.now }
    requires stops { AreStops grammar.now.rules (length grammar.now.rules) (calls.old.items ++ here.old ∷ []) }
    requires room { length grammar.now.rules ≤ vec_capacity calls.old }
    requires silent { IsSilent label here.old.walk.part }
    requires label { IsLabelOf grammar.now.rules here.old label }
    requires kept { AreKept grammar.now.rules kept.old }
    requires none { labels_of (again_of kept.old) ≡ [] }
    ensures left { labels_of (again_of kept.new) ++ left_at grammar.now.rules (found result here.new) calls.new.items ≡ left_at grammar.now.rules (Some here.old) calls.old.items }
    ensures stops { AreStops grammar.now.rules (length grammar.now.rules) (calls.new.items ++ option_to_list (found result here.new)) }
    ensures room { length grammar.now.rules ≤ vec_capacity calls.new }
    ensures work { work_at grammar.now.rules (found result here.new) calls.new.items < work_at grammar.now.rules (Some here.old) calls.old.items }
    ensures kept { AreKept grammar.now.rules kept.new }
{
    if let Label::Call(rule) = label {
        if kept.begin(grammar, rule, here.walk.part, steps) {
            return pass(here, calls, grammar, steps);
        }
    }
    go_on(here, calls, grammar, label, steps)
}

// Goes on from a stop that gives no token, and answers whether there is a stop then.
pub(crate) fn go_on<L: Ledger>(
    here: &mut RuleStop,
    calls: &mut Vec<RuleStop>,
    grammar: &Grammar,
    label: Label,
    steps: &mut Steps<L>,
) -> bool
    requires keyed { IsKeyed grammar.now }
    requires stops { AreStops grammar.now.rules (length grammar.now.rules) (calls.old.items ++ here.old ∷ []) }
    requires room { length grammar.now.rules ≤ vec_capacity calls.old }
    requires silent { IsSilent label here.old.walk.part }
    requires label { IsLabelOf grammar.now.rules here.old label }
    ensures left { left_at grammar.now.rules (found result here.new) calls.new.items ≡ left_at grammar.now.rules (Some here.old) calls.old.items }
    ensures stops { AreStops grammar.now.rules (length grammar.now.rules) (calls.new.items ++ option_to_list (found result here.new)) }
    ensures room { length grammar.now.rules ≤ vec_capacity calls.new }
    ensures work { work_at grammar.now.rules (found result here.new) calls.new.items < work_at grammar.now.rules (Some here.old) calls.old.items }
{
    match label {
        Label::Call(called) => enter(here, calls, grammar, called, steps),
        Label::Param => leave(here, calls, grammar, steps),
        _ => pass(here, calls, grammar, steps),
    }
}

// Goes from a call to the first stop of the called rule's segment, or past the call where there is none.
pub(crate) fn enter<L: Ledger>(
    here: &mut RuleStop,
    calls: &mut Vec<RuleStop>,
    grammar: &Grammar,
    rule: usize,
    steps: &mut Steps<L>,
) -> bool
    requires keyed { IsKeyed grammar.now }
    requires stops { AreStops grammar.now.rules (length grammar.now.rules) (calls.old.items ++ here.old ∷ []) }
    requires room { length grammar.now.rules ≤ vec_capacity calls.old }
    requires call { IsLabelOf grammar.now.rules here.old (Label.Call rule) }
    ensures left { left_at grammar.now.rules (found result here.new) calls.new.items ≡ left_at grammar.now.rules (Some here.old) calls.old.items }
    ensures stops { AreStops grammar.now.rules (length grammar.now.rules) (calls.new.items ++ option_to_list (found result here.new)) }
    ensures room { length grammar.now.rules ≤ vec_capacity calls.new }
    ensures work { work_at grammar.now.rules (found result here.new) calls.new.items < work_at grammar.now.rules (Some here.old) calls.old.items }
{
    match segment_start(grammar, rule, here.walk.part, steps) {
        Some(first) => {
            // There is room for a stop of each rule.
            calls.push(*here).unwrap();
            *here = first;
            true
        }
        None => pass(here, calls, grammar, steps),
    }
}

// Goes past a stop, and at the end of its tour past the call that led there. It answers whether there is a stop then.
pub(crate) fn pass<L: Ledger>(
    here: &mut RuleStop,
    calls: &mut Vec<RuleStop>,
    grammar: &Grammar,
    steps: &mut Steps<L>,
) -> bool
    requires keyed { IsKeyed grammar.now }
    requires stops { AreStops grammar.now.rules (length grammar.now.rules) (calls.old.items ++ here.old ∷ []) }
    ensures left { left_at grammar.now.rules (found result here.new) calls.new.items
        ≡ segment_left grammar.now.rules (drop 1 (stops_of grammar.now.rules here.old)) ++ behind grammar.now.rules calls.old.items [] }
    ensures stops { AreStops grammar.now.rules (length grammar.now.rules) (calls.new.items ++ option_to_list (found result here.new)) }
    ensures room { vec_capacity calls.new ≡ vec_capacity calls.old }
    ensures work { work_at grammar.now.rules (found result here.new) calls.new.items < work_at grammar.now.rules (Some here.old) calls.old.items }
{
    if here.rule == 0 {
        return skip(here, calls, grammar, steps);
    }
    let key = here.walk.key;
    if here.walk.advance(grammar, &grammar.site(key, steps), steps) {
        return true;
    }
    leave(here, calls, grammar, steps)
}

// Goes past a stop of the first rule. It calls none, so that its stops behind children give nothing.
pub(crate) fn skip<L: Ledger>(
    here: &mut RuleStop,
    calls: &mut Vec<RuleStop>,
    grammar: &Grammar,
    steps: &mut Steps<L>,
) -> bool
    requires keyed { IsKeyed grammar.now }
    requires stops { AreStops grammar.now.rules (length grammar.now.rules) (calls.old.items ++ here.old ∷ []) }
    requires first { here.old.rule ≡ 0 }
    ensures left { left_at grammar.now.rules (found result here.new) calls.new.items
        ≡ segment_left grammar.now.rules (drop 1 (stops_of grammar.now.rules here.old)) ++ behind grammar.now.rules calls.old.items [] }
    ensures stops { AreStops grammar.now.rules (length grammar.now.rules) (calls.new.items ++ option_to_list (found result here.new)) }
    ensures room { vec_capacity calls.new ≡ vec_capacity calls.old }
    ensures work { work_at grammar.now.rules (found result here.new) calls.new.items < work_at grammar.now.rules (Some here.old) calls.old.items }
{
    if here.walk.advance_to_node(grammar, steps) {
        return true;
    }
    leave(here, calls, grammar, steps)
}

// Goes past the call that led to the innermost rule, and answers whether there is a stop then.
pub(crate) fn leave<L: Ledger>(
    here: &mut RuleStop,
    calls: &mut Vec<RuleStop>,
    grammar: &Grammar,
    steps: &mut Steps<L>,
) -> bool
    requires keyed { IsKeyed grammar.now }
    requires stops { AreStops grammar.now.rules (length grammar.now.rules) calls.old.items }
    ensures left { left_at grammar.now.rules (found result here.new) calls.new.items ≡ behind grammar.now.rules calls.old.items [] }
    ensures stops { AreStops grammar.now.rules (length grammar.now.rules) (calls.new.items ++ option_to_list (found result here.new)) }
    ensures room { vec_capacity calls.new ≡ vec_capacity calls.old }
    ensures work { work_at grammar.now.rules (found result here.new) calls.new.items ≤ work_at grammar.now.rules None calls.old.items }
{
    while let Some(call) = calls.pop() {
        *here = call;
        let key = here.walk.key;
        if here.walk.advance(grammar, &grammar.site(key, steps), steps) {
            return true;
        }
    }
    false
}
