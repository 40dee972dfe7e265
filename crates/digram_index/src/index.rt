// The index of the digrams of a grammar.
ghost use Rattle.std.specs.Prelude.{◌≡◌, ◌≢◌, ◌+◌, ◌-◌, ◌<◌, ◌≤◌, nat_lt, ℕ, [], length, Some, None, OnOk, OnErr, IfOk, IfSome, IfNone, IsOk, MatchBool};
ghost use Rattle.slt_grammar.specs.Algebras.{ranks_of};
ghost use Rattle.slt_grammar.specs.Keyed.{rules_of};
ghost use Rattle.slt_grammar.specs.Names.{Call};
ghost use Rattle.rule_arena.specs.declared.key.Key.{Key};
ghost use Rattle.digram_index.specs.Digrams.{Cell, OccursAt, joint_rank};

use crate::entries::Entries;
use crate::flags::clear;
use crate::labels::{is_known, label, mark_of};
use crate::numbers::Numbers;
use crate::occurrence::{rank_of, read};
use crate::patterns::Pattern;
use crate::touched::Touched;
use slt_grammar::{Digram, Grammar, Key};
use std::alloc::{AllocError, Global};
use std::marker::{Brand, Model};
use std::sync::ledger::Blank;

/// The occurrences of the digrams of a grammar.
pub struct Index {
    numbers: Numbers,
    pub(crate) entries: Entries,
    // A hint, of which the model doesn't speak.
    pub(crate) touched: Touched,
    // Which nodes are marked, by their numbers.
    pub(crate) marked: Vec<bool>,
}

// Written out, so that whoever drops an index calls this, and doesn't drop each list by itself.
impl Drop for Index {
    fn drop(self) {
        let Index {
            numbers: _numbers,
            entries: _entries,
            touched: _touched,
            marked: _marked,
        } = self;
    }
}

impl Model for Index {
    ghost use Rattle.std.specs.Prelude.{◌-◌, length, map, min};
    ghost use Rattle.digram_index.specs.Linked.{Linked};

    ghost Value = { Linked };

    ghost use Rattle.digram_index.specs.Linked.{cell_of, IsKept};

    ghost view = { λ a. record {
      rules = length a.numbers.numbers;
      numbers = a.numbers.numbers;
      given = a.numbers.given;
      cells = map (cell_of a.numbers.numbers) a.entries.spots;
      marked = a.marked.items;
      spare_links = a.entries.spare;
      spare_rules = min a.numbers.spare (a.entries.callees - a.numbers.given);
    } };

    ghost invariant = { λ a. IsKept a.numbers a.entries a.marked.items };
}

/// A call that was found.
#[derive(Clone, Copy, Drop)]
pub struct FoundCall {
    /// the call
    pub key: Key,
    /// where the search for the next one goes on
    pub hint: usize,
}

impl Index {
    ghost use Rattle.digram_index.specs.Digrams.{Cell, OccursAt, joint_rank};
    ghost use Rattle.slt_grammar.specs.Digrams.{digram_rank, HasThreeDisjoint};
    ghost use Rattle.slt_grammar.specs.declared.digram.Digram.{Digram};
    ghost use Rattle.digram_index.specs.Frequency.{IsMostFrequent};
    ghost use Rattle.digram_index.specs.Keeping.{AreOccurrences};
    ghost use Rattle.digram_index.specs.Linked.{IsCallLinked, IsIndexOf, cell, cell_count, shifted_cell, unshifted_cell, Lacks};
    ghost use Rattle.digram_index.specs.Marking.{HasNumberLess, HasNumberMore, MarksFewer, MarksNoMore};
    ghost use Rattle.digram_index.specs.Numbers.{AreBelow, AreDistinct};
    ghost use Rattle.digram_index.specs.Settled.{HasApart, HasTwoDisjoint, IsWithin};

    /// An index in which nothing is linked.
    pub fn new(alloc: Global, rules: usize) -> Result<Index, AllocError>
        ensures rules { IfOk result (λ a. a.rules ≡ rules) }
        ensures cells { IfOk result (λ a. a.cells ≡ []) }
        ensures marked { IfOk result (λ a. a.marked ≡ []) }
    {
        let numbers = Numbers::new(alloc, rules)?;
        let mut entries = Entries::new(alloc)?;
        entries.reserve_callees(numbers.given(), 0)?;
        let touched = Touched::new(alloc)?;
        Ok(Index {
            numbers,
            entries,
            touched,
            marked: Vec::new(alloc),
        })
    }

    /// Makes room for more occurrences of nodes whose numbers are below the grammar's limit, and for more rules.
    pub fn reserve(
        &mut self,
        grammar: &Grammar,
        more: usize,
        rules: usize,
    ) -> Result<(), AllocError>
        ensures rules { self.new.rules ≡ self.old.rules }
        ensures cells { (k : ℕ) → cell self.new k ≡ cell self.old k }
        ensures more { length self.old.cells ≤ length self.new.cells }
        ensures spares { (self.old.spare_links ≤ self.new.spare_links) × (self.old.spare_rules ≤ self.new.spare_rules) }
        ensures room { OnOk result ((grammar.now.limit ≤ length self.new.cells) × (more ≤ self.new.spare_links) × (rules ≤ self.new.spare_rules)) }
        ensures marks { MarksFewer self.old self.new }
    {
        self.numbers.reserve(rules)?;
        self.entries.reserve_callees(self.numbers.given(), rules)?;
        self.entries.reserve(more)?;
        self.entries.extend(grammar.limit())
    }

    /// Adds one occurrence of the grammar, named by its lower node.
    pub fn link(&mut self, grammar: &Grammar, lower: Key) -> Result<(), AllocError>
        requires rules { self.old.rules ≡ length grammar.now.rules }
        requires occurs { (o : Cell) × OccursAt grammar.now.rules lower o }
        requires free { cell self.old lower.number ≡ None }
        ensures linked { OnOk result ((o : Cell) → OccursAt grammar.now.rules lower o → cell self.new lower.number ≡ Some o) }
        ensures err { OnErr result (cell self.new lower.number ≡ None) }
        ensures rules { self.new.rules ≡ self.old.rules }
        ensures others { (k : ℕ) → k ≢ lower.number → cell self.new k ≡ cell self.old k }
        ensures room { length self.old.cells ≤ length self.new.cells }
        ensures spare { (self.old.spare_links ≤ self.new.spare_links + 1) × (self.new.spare_rules ≡ self.old.spare_rules) }
        ensures succeeds { 0 < self.old.spare_links → lower.number < length self.old.cells → IsOk result }
        ensures marks { MarksFewer self.old self.new }
    {
        let _limit = grammar.limit();
        self.extend(grammar, lower.number())?;
        self.reserve_link()?;
        self.link_reserved(grammar, lower);
        Ok(())
    }

    /// Adds one occurrence of the grammar, named by its lower node, where there is room for it. It takes no memory.
    pub fn link_reserved(&mut self, grammar: &Grammar, lower: Key)
        requires rules { self.old.rules ≡ length grammar.now.rules }
        requires occurs { (o : Cell) × OccursAt grammar.now.rules lower o }
        requires free { cell self.old lower.number ≡ None }
        requires room { 0 < self.old.spare_links }
        requires cells { lower.number < length self.old.cells }
        ensures linked { (o : Cell) → OccursAt grammar.now.rules lower o → cell self.new lower.number ≡ Some o }
        ensures rules { self.new.rules ≡ self.old.rules }
        ensures others { (k : ℕ) → k ≢ lower.number → cell self.new k ≡ cell self.old k }
        ensures room { length self.new.cells ≡ length self.old.cells }
        ensures spare { (self.old.spare_links ≤ self.new.spare_links + 1) × (self.new.spare_rules ≡ self.old.spare_rules) }
        ensures marks { MarksFewer self.old self.new }
    {
        let _limit = grammar.limit();
        let reading = read::<Brand>(grammar, lower, Blank::new(1));
        self.enter(lower.number(), reading.upper, reading.digram, reading.rank);
        self.note_touched(lower);
    }

    /// Whether a node is the lower node of a linked occurrence.
    pub fn is_linked(&self, lower: Key) -> bool
        ensures { MatchBool result (cell self.now lower.number ≢ None) (cell self.now lower.number ≡ None) }
    {
        self.entries.at(lower.number()).is_some()
    }

    /// Whether more numbers of rules that went are kept than this, with their digrams, so that it is time to make the index anew.
    pub fn is_worn(&self, most: usize) -> bool
        ensures { result ≡ nat_lt most (self.now.given - self.now.rules) }
    {
        self.numbers.given().saturating_sub(self.numbers.len()) > most
    }

    /// How many occurrences of a digram there are.
    pub fn count(&self, digram: Digram) -> u64
        ensures { result ≡ cell_count digram self.now.cells }
    {
        if !is_known(&self.numbers, digram.upper) {
            return 0;
        }
        if !is_known(&self.numbers, digram.lower) {
            return 0;
        }
        let pattern = Pattern {
            upper: mark_of(&self.numbers, digram.upper),
            place: digram.place,
            lower: mark_of(&self.numbers, digram.lower),
            rank: 0,
        };
        self.entries.count_all(pattern) as u64
    }

    /// The lower node of a linked occurrence of a digram, and none exactly where none is linked. Of several it is the one that was linked
    /// first of those that are left, which no clause promises.
    pub fn first(&self, grammar: &Grammar, digram: Digram) -> Option<Key>
        requires { AreOccurrences grammar.now.rules self.now }
        ensures some { IfSome result (λ key. (o : Cell) × ((cell self.now key.number ≡ Some o) × (o.digram ≡ digram))) }
        ensures none { IfNone result ((k : ℕ) (o : Cell) → cell self.now k ≡ Some o → o.digram ≢ digram) }
        ensures occurs { IfSome result (λ key. (o : Cell) × (OccursAt grammar.now.rules key o × (o.digram ≡ digram))) }
    {
        let _limit = grammar.limit();
        // The call tells that the numbers of lower nodes are small.
        let _len = self.entries.len();
        if !is_known(&self.numbers, digram.upper) {
            return None;
        }
        if !is_known(&self.numbers, digram.lower) {
            return None;
        }
        let pattern = Pattern {
            upper: mark_of(&self.numbers, digram.upper),
            place: digram.place,
            lower: mark_of(&self.numbers, digram.lower),
            rank: rank_of(grammar, digram),
        };
        match self.entries.first(pattern) {
            Some(number) => Some(Key::of(number)),
            None => None,
        }
    }

    /// The lower node of a linked occurrence that calls a rule there, and none exactly where none is linked. A call that is a rule's root
    /// is no lower node. The search goes on from `hint`, which an earlier one gave, or begins anew with 0: of many calls of a rule that are
    /// unlinked in turn each is found at once, which no clause tells of.
    pub fn call_of(&self, rule: usize, hint: usize) -> Option<FoundCall>
        requires { rule < self.now.rules }
        ensures some { IfSome result (λ found. IsCallLinked self.now rule found.key.number) }
        ensures none { IfNone result ((k : ℕ) → IsCallLinked self.now rule k → ⊥) }
    {
        // The call tells that the numbers of lower nodes are small.
        let _len = self.entries.len();
        match self.entries.call(self.numbers.number(rule), hint) {
            Some((lower, entry)) => Some(FoundCall {
                key: Key::of(lower),
                hint: entry,
            }),
            None => None,
        }
    }

    /// A digram whose rank is within the bound, which is at most 8, and of which three occurrences share no node, and none exactly where
    /// there is none. No other is more frequent by more than a sixteenth.
    pub fn top(&self, grammar: &Grammar, bound: usize) -> Option<Digram>
        requires index { IsIndexOf grammar.now self.now }
        requires bound { bound ≤ 8 }
        ensures within { IfSome result (λ d. digram_rank (rules_of grammar.now.rules) d ≤ bound) }
        ensures three { IfSome result (λ d. HasThreeDisjoint (rules_of grammar.now.rules) d) }
        ensures none { IfNone result ((d : Digram) → digram_rank (rules_of grammar.now.rules) d ≤ bound → HasThreeDisjoint (rules_of grammar.now.rules) d → ⊥) }
        ensures most { IfSome result (λ d. IsMostFrequent (rules_of grammar.now.rules) self.now bound d) }
    {
        let _limit = grammar.limit();
        self.frequent(grammar, bound, 3)
    }

    /// A digram whose rank is within the bound, which is at most 8, and of which two occurrences share no node, and none exactly where
    /// there is none.
    pub fn twice(&self, grammar: &Grammar, bound: usize) -> Option<Digram>
        requires index { IsIndexOf grammar.now self.now }
        requires bound { bound ≤ 8 }
        ensures within { IfSome result (λ d. digram_rank (rules_of grammar.now.rules) d ≤ bound) }
        ensures two { IfSome result (λ d. HasTwoDisjoint (rules_of grammar.now.rules) d) }
        ensures none { IfNone result ((d : Digram) → digram_rank (rules_of grammar.now.rules) d ≤ bound → HasTwoDisjoint (rules_of grammar.now.rules) d → ⊥) }
    {
        let _limit = grammar.limit();
        self.frequent(grammar, bound, 2)
    }

    // A digram whose rank is within the bound and of which so many occurrences share no node, two or three.
    fn frequent(&self, grammar: &Grammar, bound: usize, least: usize) -> Option<Digram>
        requires index { IsIndexOf grammar.now self.now }
        requires bound { bound ≤ 8 }
        requires least { (2 ≤ least) × (least ≤ 3) }
        ensures within { IfSome result (λ d. IsWithin grammar.now.rules bound d) }
        ensures apart { IfSome result (λ d. HasApart grammar.now.rules d least) }
        ensures none { IfNone result ((d : Digram) → IsWithin grammar.now.rules bound d → HasApart grammar.now.rules d least → ⊥) }
        ensures most { 3 ≤ least → IfSome result (λ d. IsMostFrequent (rules_of grammar.now.rules) self.now bound d) }
    {
        let _limit = grammar.limit();
        match self.entries.best(bound, least) {
            Some(pattern) => Some(Digram {
                upper: label(&self.numbers, pattern.upper),
                place: pattern.place,
                lower: label(&self.numbers, pattern.lower),
            }),
            None => None,
        }
    }

    // Makes room for the nodes of the grammar, where there is none for a number.
    fn extend(&mut self, grammar: &Grammar, number: usize) -> Result<(), AllocError>
        requires { number < grammar.now.limit }
        ensures rules { self.new.rules ≡ self.old.rules }
        ensures cells { (k : ℕ) → cell self.new k ≡ cell self.old k }
        ensures more { length self.old.cells ≤ length self.new.cells }
        ensures room { OnOk result (number < length self.new.cells) }
        ensures spares { (self.new.spare_links ≡ self.old.spare_links) × (self.new.spare_rules ≡ self.old.spare_rules) }
        ensures succeeds { number < length self.old.cells → IsOk result }
        ensures marks { MarksFewer self.old self.new }
    {
        if number < self.entries.len() {
            return Ok(());
        }
        self.entries.extend(grammar.limit())
    }

    /// Takes an occurrence away, named by its lower node.
    pub fn unlink(&mut self, lower: Key)
        requires { cell self.old lower.number ≢ None }
        ensures rules { self.new.rules ≡ self.old.rules }
        ensures free { cell self.new lower.number ≡ None }
        ensures others { (k : ℕ) → k ≢ lower.number → cell self.new k ≡ cell self.old k }
        ensures room { length self.new.cells ≡ length self.old.cells }
        ensures spares { (self.new.spare_links ≡ self.old.spare_links) × (self.new.spare_rules ≡ self.old.spare_rules) }
        ensures marks { MarksFewer self.old self.new }
    {
        let number = lower.number();
        self.entries.take(number);
        clear(&mut self.marked, number);
    }

    // Makes room for one occurrence.
    fn reserve_link(&mut self) -> Result<(), AllocError>
        ensures rules { self.new.rules ≡ self.old.rules }
        ensures cells { (k : ℕ) → cell self.new k ≡ cell self.old k }
        ensures stays { length self.new.cells ≡ length self.old.cells }
        ensures room { OnOk result (0 < self.new.spare_links) }
        ensures spares { (self.old.spare_links ≤ self.new.spare_links) × (self.new.spare_rules ≡ self.old.spare_rules) }
        ensures succeeds { 0 < self.old.spare_links → IsOk result }
        ensures marks { MarksFewer self.old self.new }
    {
        self.entries.reserve(1)
    }

    // Adds an occurrence whose labels were read, where there is room for it.
    fn enter(&mut self, lower: usize, upper: Key, digram: Digram, rank: usize)
        requires room { lower < length self.old.cells }
        requires free { cell self.old lower ≡ None }
        requires upper { (q : ℕ) → digram.upper ≡ Call q → q < self.old.rules }
        requires lower { (q : ℕ) → digram.lower ≡ Call q → q < self.old.rules }
        requires small { rank < 16 }
        requires place { digram.place ≤ 8 }
        requires spare { 0 < self.old.spare_links }
        ensures here { cell self.new lower ≡ Some (record { digram = digram; rank = rank; upper = upper.number }) }
        ensures rules { self.new.rules ≡ self.old.rules }
        ensures others { (k : ℕ) → k ≢ lower → cell self.new k ≡ cell self.old k }
        ensures room { length self.new.cells ≡ length self.old.cells }
        ensures spare { (self.old.spare_links ≤ self.new.spare_links + 1) × (self.new.spare_rules ≡ self.old.spare_rules) }
        ensures marks { MarksFewer self.old self.new }
    {
        let pattern = Pattern {
            upper: mark_of(&self.numbers, digram.upper),
            place: digram.place,
            lower: mark_of(&self.numbers, digram.lower),
            rank,
        };
        self.entries.add(lower, upper, pattern);
    }

    /// Gives a number to a rule that is put before the rule at a place.
    pub fn insert_rule(&mut self, place: usize) -> Result<(), AllocError>
        requires { place ≤ self.old.rules }
        ensures rules { OnOk result (self.new.rules ≡ self.old.rules + 1) }
        ensures cells { OnOk result ((k : ℕ) → cell self.new k ≡ shifted_cell place (cell self.old k)) }
        ensures err { OnErr result ((self.new.rules ≡ self.old.rules) × ((k : ℕ) → cell self.new k ≡ cell self.old k)) }
        ensures room { length self.new.cells ≡ length self.old.cells }
        ensures spare { (self.old.spare_rules ≤ self.new.spare_rules + 1) × (self.new.spare_links ≡ self.old.spare_links) }
        ensures succeeds { 0 < self.old.spare_rules → IsOk result }
        ensures marks { MarksNoMore self.old self.new }
        ensures numbers { OnOk result (HasNumberMore place self.old self.new) }
        ensures refused { OnErr result (MarksFewer self.old self.new) }
    {
        self.entries.reserve_callees(self.numbers.given(), 1)?;
        self.numbers.insert(place)
    }

    /// Takes the number of a rule that is dropped.
    pub fn remove_rule(&mut self, place: usize)
        requires there { place < self.old.rules }
        requires lacks { Lacks self.old place }
        ensures rules { self.new.rules + 1 ≡ self.old.rules }
        ensures cells { (k : ℕ) → cell self.new k ≡ unshifted_cell place (cell self.old k) }
        ensures room { length self.new.cells ≡ length self.old.cells }
        ensures spare { (self.old.spare_rules ≤ self.new.spare_rules) × (self.new.spare_links ≡ self.old.spare_links) }
        ensures marks { MarksNoMore self.old self.new }
        ensures numbers { HasNumberLess place self.old self.new }
    {
        self.numbers.remove(place);
    }

    /// The number of each rule, which the rule keeps while others come and go before it. No other rule has it, then or later.
    pub fn numbers(&self) -> &[usize]
        ensures value { result.now ≡ self.now.numbers }
        ensures length { length self.now.numbers ≡ self.now.rules }
        ensures distinct { AreDistinct self.now.numbers }
        ensures below { AreBelow self.now.numbers self.now.given }
    {
        self.numbers.as_slice()
    }
}
