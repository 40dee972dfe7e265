// Segments of rules whose tokens are kept, so that they are told again without reading nodes.
ghost use Rattle.std.specs.Prelude.{◌≡◌, List, ◌<◌, ◌≤◌, ◌++◌, [], ◌∷◌, length, vec_capacity, Some, IfOk, IsTrue, if◌then◌else◌};
ghost use Rattle.std.specs.Option.{option_to_list};
ghost use Rattle.rule_arena.specs.declared.label.Label.{Label};
ghost use Rattle.slt_grammar.specs.Keyed.{IsKeyed, KeyedRule, rules_of};
ghost use Rattle.slt_grammar.specs.Segments.{preorder, segment};
ghost use Rattle.value_cursor.specs.Cursors.{found, left_at};
ghost use Rattle.value_cursor.specs.Kept.{AreKept, GivenLeft, IsKept, Told, again_of, labels_of};
ghost use Rattle.value_cursor.specs.Stops.{AreStops};
ghost use Rattle.value_cursor.specs.Work.{work_at};

use crate::cursor::{Token, go_on, pass, token_at};
use crate::entering::segment_start;
use preorder_address::RuleStop;
use read_steps::Steps;
use slt_grammar::Grammar;
use std::alloc::{AllocError, Global};
use std::sync::ledger::Ledger;

// How many segments are kept at most.
const ENTRIES: usize = 1024;
// How many tokens are kept at most.
const TOKENS: usize = 16_384;
// How many tokens a segment has at most that is kept.
const LONGEST: usize = 256;

// What is known of the segments that share a place.
#[derive(Clone, Copy, Drop)]
pub(crate) enum Entry {
    // None of them was called.
    Free,
    // The first that was called is too long to be kept.
    Long,
    // The tokens of this segment are kept from `start` up to `end`.
    Kept {
        rule: usize,
        part: usize,
        start: usize,
        end: usize,
    },
}

// The kept segments, and what is left of the one that is told again.
#[derive(Drop)]
pub(crate) struct KeptSegments {
    // The tokens of all of them.
    pub(crate) tokens: Vec<Token>,
    pub(crate) entries: Vec<Entry>,
    // The calls around a stop while a segment is told for the first time.
    pub(crate) spare: Vec<RuleStop>,
    // The tokens from here up to `end` are told again.
    pub(crate) at: usize,
    pub(crate) end: usize,
}

impl KeptSegments {
    // None is kept yet. All the memory that is ever needed is taken.
    pub(crate) fn new(alloc: Global, rules: usize) -> Result<KeptSegments, AllocError>
        ensures kept { IfOk result (λ kept. (G : List KeyedRule) → length G ≤ rules → AreKept G kept) }
        ensures again { IfOk result (λ kept. again_of kept ≡ []) }
    {
        Ok(KeptSegments {
            tokens: Vec::with_capacity(alloc, TOKENS)?,
            entries: vec![in alloc; Entry::Free; ENTRIES]?,
            spare: Vec::with_capacity(alloc, rules)?,
            at: 0,
            end: 0,
        })
    }

    // The next token of the segment that is told again, and None at its end.
    pub(crate) fn next(&mut self) -> Option<Token>
        requires within { self.old.end ≤ length self.old.tokens.items }
        ensures token { GivenLeft result (labels_of (again_of self.old)) (labels_of (again_of self.new)) }
        ensures kept { (G : List KeyedRule) → AreKept G self.old → AreKept G self.new }
    {
        if self.at >= self.end {
            return None;
        }
        let token = self.tokens[self.at];
        self.at += 1;
        Some(token)
    }

    // Nothing is told again any more.
    pub(crate) fn forget(&mut self)
        ensures again { again_of self.new ≡ [] }
        ensures entries { self.new.entries.items ≡ self.old.entries.items }
        ensures kept { (G : List KeyedRule) → AreKept G self.old → AreKept G self.new }
    {
        self.at = 0;
        self.end = 0;
    }

    // Begins to tell a rule's segment again where it is kept, and answers whether it is.
    pub(crate) fn begin<L: Ledger>(
        &mut self,
        grammar: &Grammar,
        rule: usize,
        part: usize,
        steps: &mut Steps<L>,
    ) -> bool
        requires keyed { IsKeyed grammar.now }
        requires rule { rule < length grammar.now.rules }
        requires kept { AreKept grammar.now.rules self.old }
        ensures kept { AreKept grammar.now.rules self.new }
        ensures again { labels_of (again_of self.new) ≡ (if result then segment part (preorder (rules_of grammar.now.rules) rule) else []) }
    {
        let place = rule % 256 * 4 + part % 4;
        if let Entry::Free = self.entries[place] {
            self.fill(grammar, place, rule, part, steps);
        }
        self.find(place, rule, part)
    }

    // Keeps a segment at this place.
    fn fill<L: Ledger>(
        &mut self,
        grammar: &Grammar,
        place: usize,
        rule: usize,
        part: usize,
        steps: &mut Steps<L>,
    )
        requires keyed { IsKeyed grammar.now }
        requires rule { rule < length grammar.now.rules }
        requires place { place < 1024 }
        requires kept { AreKept grammar.now.rules self.old }
        ensures kept { AreKept grammar.now.rules self.new }
    {
        let entry = self.keep(grammar, rule, part, steps);
        self.entries[place] = entry;
    }

    // Tells the segment again if this entry is its own.
    fn find(&mut self, place: usize, rule: usize, part: usize) -> bool
        requires place { place < length self.old.entries.items }
        ensures kept { (G : List KeyedRule) → AreKept G self.old → AreKept G self.new }
        ensures again { (G : List KeyedRule) → AreKept G self.old → labels_of (again_of self.new) ≡ (if result then segment part (preorder (rules_of G) rule) else []) }
    {
        self.forget();
        match self.entries[place] {
            Entry::Kept {
                rule: kept_rule,
                part: kept_part,
                start,
                end,
            } => {
                if kept_rule != rule || kept_part != part {
                    return false;
                }
                self.at = start;
                self.end = end;
                true
            }
            _ => false,
        }
    }

    // Tells a segment for the first time, and keeps its tokens where they aren't too many.
    fn keep<L: Ledger>(
        &mut self,
        grammar: &Grammar,
        rule: usize,
        part: usize,
        steps: &mut Steps<L>,
    ) -> Entry
        requires keyed { IsKeyed grammar.now }
        requires rule { rule < length grammar.now.rules }
        requires kept { AreKept grammar.now.rules self.old }
        ensures kept { AreKept grammar.now.rules self.new }
        ensures entry { IsKept grammar.now.rules self.new.tokens.items result }
    {
        let start = self.tokens.len();
        let whole = tell_segment(
            grammar,
            rule,
            part,
            &mut self.spare,
            &mut self.tokens,
            steps,
        );
        self.spare.clear();
        if !whole {
            self.tokens.truncate(start);
            return Entry::Long;
        }
        Entry::Kept {
            rule,
            part,
            start,
            end: self.tokens.len(),
        }
    }
}

// Tells the tokens of a segment, and answers whether that are all.
fn tell_segment<L: Ledger>(
    grammar: &Grammar,
    rule: usize,
    part: usize,
    calls: &mut Vec<RuleStop>,
    tokens: &mut Vec<Token>,
    steps: &mut Steps<L>,
) -> bool
    requires keyed { IsKeyed grammar.now }
    requires rule { rule < length grammar.now.rules }
    requires none { calls.old.items ≡ [] }
    requires room { length grammar.now.rules ≤ vec_capacity calls.old }
    requires places { 16384 ≤ vec_capacity tokens.old }
    ensures told { (left : List Label) × Told (segment part (preorder (rules_of grammar.now.rules) rule)) left tokens.old.items tokens.new.items × (IsTrue result → left ≡ []) }
    ensures room { length grammar.now.rules ≤ vec_capacity calls.new }
    ensures places { 16384 ≤ vec_capacity tokens.new }
{
    let Some(mut here) = segment_start(grammar, rule, part, steps) else {
        return true;
    };
    tell(&mut here, calls, tokens, grammar, steps)
}

// Tells the tokens from a stop on, and answers whether that are all: at most `LONGEST` are told.
fn tell<L: Ledger>(
    here: &mut RuleStop,
    calls: &mut Vec<RuleStop>,
    tokens: &mut Vec<Token>,
    grammar: &Grammar,
    steps: &mut Steps<L>,
) -> bool
    requires keyed { IsKeyed grammar.now }
    requires stops { AreStops grammar.now.rules (length grammar.now.rules) (calls.old.items ++ here.old ∷ []) }
    requires room { length grammar.now.rules ≤ vec_capacity calls.old }
    requires places { 16384 ≤ vec_capacity tokens.old }
    ensures told { (left : List Label) × Told (left_at grammar.now.rules (Some here.old) calls.old.items) left tokens.old.items tokens.new.items × (IsTrue result → left ≡ []) }
    ensures room { length grammar.now.rules ≤ vec_capacity calls.new }
    ensures places { 16384 ≤ vec_capacity tokens.new }
{
    let limit = tokens.len().saturating_add(LONGEST).min(TOKENS);
    while tokens.len() < limit {
        if !tell_stop(here, calls, tokens, grammar, steps) {
            return true;
        }
    }
    false
}

// Tells the token of a stop, where it has one, goes on, and answers whether there is a stop then.
fn tell_stop<L: Ledger>(
    here: &mut RuleStop,
    calls: &mut Vec<RuleStop>,
    tokens: &mut Vec<Token>,
    grammar: &Grammar,
    steps: &mut Steps<L>,
) -> bool
    requires keyed { IsKeyed grammar.now }
    requires stops { AreStops grammar.now.rules (length grammar.now.rules) (calls.old.items ++ here.old ∷ []) }
    requires room { length grammar.now.rules ≤ vec_capacity calls.old }
    requires place { length tokens.old.items < vec_capacity tokens.old }
    ensures told { Told (left_at grammar.now.rules (Some here.old) calls.old.items) (left_at grammar.now.rules (found result here.new) calls.new.items) tokens.old.items tokens.new.items }
    ensures stops { AreStops grammar.now.rules (length grammar.now.rules) (calls.new.items ++ option_to_list (found result here.new)) }
    ensures room { length grammar.now.rules ≤ vec_capacity calls.new }
    ensures places { vec_capacity tokens.old ≤ vec_capacity tokens.new }
    ensures work { work_at grammar.now.rules (found result here.new) calls.new.items < work_at grammar.now.rules (Some here.old) calls.old.items }
{
    let label = grammar.label(here.walk.key, steps);
    let Some(token) = token_at(label, here.walk.part) else {
        return go_on(here, calls, grammar, label, steps);
    };
    // There is room up to the limit.
    tokens.push(token).unwrap();
    pass(here, calls, grammar, steps)
}
