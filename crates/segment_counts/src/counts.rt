// The numbers that are kept of each rule's segments.
ghost use Rattle.std.specs.Prelude.{◌≡◌, ◌<◌, ◌≤◌, ◌+◌, ◌-◌, ◌*◌, ◌^◌, ℕ, List, [], ◌∷◌, ◌++◌, drop, get_or, length, replicate, set, sum_by, IsOk, OnErr, OnOk};
ghost use Rattle.std.specs.List.{insert, remove};
ghost use Rattle.plain_tree.specs.declared.kind.Kind.{Kind};
ghost use Rattle.slt_grammar.specs.Bodies.{CallsBelow};
ghost use Rattle.slt_grammar.specs.Grammars.{IsGrammar, value};
ghost use Rattle.slt_grammar.specs.Segments.{listed, part_of};
ghost use Rattle.slt_grammar.specs.declared.rules.Rule.{Rule};
ghost use Rattle.segment_counts.specs.Counting.{AreCounts, AreCountsBelow, no_row, no_weights, told, told_before, weight_by};
ghost use Rattle.segment_counts.specs.Cuts.{AreCut, cut_rows};
ghost use Rattle.segment_counts.specs.Weights.{all_weight, count, node_weight, text_weight, weigh};
ghost use Rattle.segment_counts.specs.declared.counts.Measure.TheVariants.{Nodes, Texts, All};

use crate::row_moves::{keep_from, move_ends, put_between};
use crate::tally::texts_of;
use plain_tree::Names;
use slt_grammar::Label;
use std::alloc::{AllocError, Global};
use std::marker::Model;

// Of a rule of rank 8.
pub(crate) const MOST_SEGMENTS: usize = 9;

/// What is counted.
#[derive(Clone, Copy, Drop)]
pub enum Measure {
    /// The nodes that aren't bottom.
    Nodes,
    /// The nodes that have a text.
    Texts,
    /// The nodes and the bottoms.
    All,
}

// How many rules can have segments that are numbered by 32 bits, whatever their ranks.
const MOST_RULES: usize = ((1 << 32) - 1) / MOST_SEGMENTS;

/// What a label or a segment weighs, by measure.
#[derive(Clone, Copy, Drop)]
pub struct Weights {
    pub nodes: u64,
    pub texts: u64,
    pub all: u64,
}

pub(crate) const NO_WEIGHTS: Weights = Weights {
    nodes: 0,
    texts: 0,
    all: 0,
};

/// The counts of a grammar's segments.
///
/// They are seen as a row for each rule for which there is room, beside the number of rules that were counted. That they are those
/// of a grammar is what `AreCounts` says.
pub struct Counts {
    // The segments of the rules that were counted, one rule's behind those of the rule before, and where each rule's end.
    segments: Vec<Weights>,
    ends: Vec<u32>,
    // For how many rules there is room, whatever their ranks. What the segments don't take of it is never written, so that the
    // system needn't back it with memory.
    room: usize,
}

impl Drop for Counts {
    fn drop(self) {
        let Counts {
            segments: _segments,
            ends: _ends,
            room: _room,
        } = self;
    }
}

impl Model for Counts {
    ghost use Rattle.std.specs.Prelude.{vec_capacity};
    ghost use Rattle.segment_counts.specs.Counting.{CountTable};
    ghost use Rattle.segment_counts.specs.Cuts.{HaveRoom, table_of};

    ghost Value = { CountTable };

    ghost view = { λ c. table_of c.segments.items c.ends.items c.room };

    ghost invariant = { λ c. HaveRoom c.segments.items c.ends.items (vec_capacity c.segments) (vec_capacity c.ends) c.room };
}

impl Counts {
    /// How many nodes that aren't bottom a segment of a rule's value has.
    pub fn nodes(&self, rule: usize, segment: usize) -> u64
        ensures kept { result ≡ told Nodes self.now.rows rule segment }
        ensures counts { (names : List (Kind × List ℕ)) (G : List Rule) → AreCounts names G self.now → rule < length G → result ≡ count node_weight G rule segment }
    {
        self.get(Measure::Nodes, rule, segment)
    }

    /// How many of them have a text.
    pub fn texts(&self, rule: usize, segment: usize) -> u64
        ensures kept { result ≡ told Texts self.now.rows rule segment }
        ensures counts { (names : List (Kind × List ℕ)) (G : List Rule) → AreCounts names G self.now → rule < length G → result ≡ count (text_weight names) G rule segment }
    {
        self.get(Measure::Texts, rule, segment)
    }

    /// How many nodes and bottoms a segment of a rule's value has.
    pub fn all(&self, rule: usize, segment: usize) -> u64
        ensures kept { result ≡ told All self.now.rows rule segment }
        ensures counts { (names : List (Kind × List ℕ)) (G : List Rule) → AreCounts names G self.now → rule < length G → result ≡ count all_weight G rule segment }
    {
        self.get(Measure::All, rule, segment)
    }

    /// How many nodes the grammar's value has that aren't bottom.
    pub fn total(&self) -> u64
        ensures kept { result ≡ told Nodes self.now.rows (self.now.rules - 1) 0 }
        ensures nodes { (names : List (Kind × List ℕ)) (G : List Rule) → AreCounts names G self.now → IsGrammar G → result ≡ sum_by node_weight (listed (value G) []) }
    {
        self.nodes(self.rules().saturating_sub(1), 0)
    }

    /// How many of them have a text.
    pub fn total_texts(&self) -> u64
        ensures kept { result ≡ told Texts self.now.rows (self.now.rules - 1) 0 }
        ensures texts { (names : List (Kind × List ℕ)) (G : List Rule) → AreCounts names G self.now → IsGrammar G → result ≡ sum_by (text_weight names) (listed (value G) []) }
    {
        self.texts(self.rules().saturating_sub(1), 0)
    }

    /// How many rules were counted.
    pub fn rules(&self) -> usize
        ensures { result ≡ self.now.rules }
    {
        self.ends.as_slice().len()
    }

    /// For how many rules there is room.
    pub fn room(&self) -> usize
        ensures { result ≡ length self.now.rows }
    {
        self.room
    }

    /// Makes the room at least `rules`, and needs no memory where it is so already. What was counted stays. It is refused for
    /// want of memory, and where so many rules might have 2^32 segments or more, nine a rule.
    pub fn reserve(&mut self, rules: usize) -> Result<(), AllocError>
        ensures room { OnOk result (rules ≤ length self.new.rows) }
        ensures grown { length self.old.rows ≤ length self.new.rows }
        ensures rules { self.new.rules ≡ self.old.rules }
        ensures kept { (q : ℕ) → q < length self.old.rows → get_or self.new.rows q no_row ≡ get_or self.old.rows q no_row }
        ensures refused { OnErr result (self.new ≡ self.old) }
        ensures succeeds { rules ≤ length self.old.rows → IsOk result }
        ensures segments { OnOk result (9 * rules < 2 ^ 32) }
    {
        if rules <= self.room {
            return Ok(());
        }
        if rules > MOST_RULES {
            return Err(AllocError);
        }
        let segments = rules * MOST_SEGMENTS;
        self.segments
            .reserve_exact(segments - self.segments.as_slice().len())?;
        self.ends.reserve_exact(rules - self.ends.as_slice().len())?;
        self.room = rules;
        Ok(())
    }

    /// What a rule's segment weighs, and nothing where there is no such segment.
    pub fn at(&self, rule: usize, segment: usize) -> Weights
        ensures { result ≡ get_or (get_or self.now.rows rule no_row) segment no_weights }
    {
        segment_at(
            self.segments.as_slice(),
            self.ends.as_slice(),
            rule,
            segment,
        )
    }

    /// The number of a rule's segment by a measure, and 0 where there is no such segment.
    pub fn get(&self, measure: Measure, rule: usize, segment: usize) -> u64
        ensures { result ≡ told measure self.now.rows rule segment }
    {
        let weights = self.at(rule, segment);
        match measure {
            Measure::Nodes => weights.nodes,
            Measure::Texts => weights.texts,
            Measure::All => weights.all,
        }
    }

    /// The numbers of the segments before one together.
    pub fn before(&self, measure: Measure, rule: usize, segment: usize) -> u64
        requires { told_before measure self.now.rows rule segment < 2 ^ 64 }
        ensures { result ≡ told_before measure self.now.rows rule segment }
    {
        let mut sum = 0;
        for i in 0..segment {
            sum += self.get(measure, rule, i);
        }
        sum
    }

    // The same of a rule so many places behind another one.
    fn at_behind(&self, from: usize, rule: usize, segment: usize) -> Weights
        ensures { result ≡ get_or (get_or (drop from self.now.rows) rule no_row) segment no_weights }
    {
        // The call tells that the rows' number fits.
        let _room = self.room();
        self.at(from.saturating_add(rule), segment)
    }

    /// What a part of a node weighs: a call's parts are the segments of the called rule, and another node's first part is the node.
    pub fn weights(&self, names: &Names, label: Label, part: usize) -> Weights
        ensures { (m : Measure) (k : ℕ) (G : List Rule) → AreCountsBelow names.now k G self.now.rows → CallsBelow k (label ∷ [])
            → weight_by m result ≡ sum_by (weigh names.now m) (part_of G label part) }
    {
        self.weights_behind(names, 0, label, part)
    }

    // The same where the rules' rows begin behind so many others.
    pub(crate) fn weights_behind(
        &self,
        names: &Names,
        from: usize,
        label: Label,
        part: usize,
    ) -> Weights
        ensures { (m : Measure) (k : ℕ) (G : List Rule) → AreCountsBelow names.now k G (drop from self.now.rows) → CallsBelow k (label ∷ [])
            → weight_by m result ≡ sum_by (weigh names.now m) (part_of G label part) }
    {
        match (label, part) {
            (Label::Call(rule), _) => self.at_behind(from, rule, part),
            (Label::Symbol(symbol), 0) => Weights {
                nodes: 1,
                texts: texts_of(names, symbol),
                all: 1,
            },
            (Label::Bottom, 0) => Weights {
                nodes: 0,
                texts: 0,
                all: 1,
            },
            _ => NO_WEIGHTS,
        }
    }

    // No counts. They take no memory.
    pub(crate) fn empty(alloc: Global) -> Counts
        ensures { result.rules ≡ 0 }
    {
        Counts {
            segments: Vec::new(alloc),
            ends: Vec::new(alloc),
            room: 0,
        }
    }

    // Forgets what was counted. The room stays.
    pub(crate) fn clear(&mut self)
        ensures rules { self.new.rules ≡ 0 }
        ensures room { length self.new.rows ≡ length self.old.rows }
    {
        self.segments.clear();
        self.ends.clear();
    }

    // Takes in the row of the rule behind those that were counted.
    pub(crate) fn push(&mut self, row: &[Weights])
        requires room { self.old.rules < length self.old.rows }
        requires width { length row.now ≤ MOST_SEGMENTS }
        ensures rows { self.new.rows ≡ set self.old.rows self.old.rules row.now }
        ensures rules { self.new.rules ≡ self.old.rules + 1 }
    {
        let end = self.segments.as_slice().len() + row.len();
        self.segments.extend_from_slice(row).unwrap();
        self.ends.push_reserved(end as u32);
    }

    // Takes in the row of a rule that was counted once more, behind the others.
    pub(crate) fn push_again(&mut self, rule: usize)
        requires rule { rule < self.old.rules }
        requires room { self.old.rules < length self.old.rows }
        ensures rows { self.new.rows ≡ set self.old.rows self.old.rules (get_or self.old.rows rule no_row) }
        ensures rules { self.new.rules ≡ self.old.rules + 1 }
    {
        let from = start_of(self.ends.as_slice(), rule);
        let to = self.ends[rule] as usize;
        let end = self.segments.as_slice().len() + (to - from);
        self.segments.extend_from_within(from..to).unwrap();
        self.ends.push_reserved(end as u32);
    }

    // Takes out the rows of the first so many rules. The room stays.
    pub(crate) fn forget_first(&mut self, rules: usize)
        requires { rules ≤ self.old.rules }
        ensures rows { self.new.rows ≡ drop rules self.old.rows ++ replicate rules no_row }
        ensures room { length self.new.rows ≡ length self.old.rows }
        ensures rules { self.new.rules + rules ≡ self.old.rules }
    {
        let end = start_of(self.ends.as_slice(), rules);
        keep_from(&mut self.segments, end);
        keep_from(&mut self.ends, rules);
        move_ends(&mut self.ends, 0, end, 0);
    }

    // Puts in an empty row. It takes no memory.
    pub(crate) fn open_row(&mut self, place: usize)
        requires place { place ≤ self.old.rules }
        requires room { self.old.rules < length self.old.rows }
        ensures rows { self.new.rows ++ no_row ∷ [] ≡ insert self.old.rows place no_row }
        ensures room { length self.new.rows ≡ length self.old.rows }
        ensures rules { self.new.rules ≡ self.old.rules + 1 }
    {
        let start = start_of(self.ends.as_slice(), place);
        self.ends.insert(place, start as u32).unwrap();
    }

    // Takes out an empty row.
    pub(crate) fn close_row(&mut self, rule: usize)
        requires rule { rule < self.old.rules }
        requires empty { get_or self.old.rows rule no_row ≡ no_row }
        ensures rows { self.new.rows ≡ remove self.old.rows rule ++ no_row ∷ [] }
        ensures room { length self.new.rows ≡ length self.old.rows }
        ensures rules { self.new.rules + 1 ≡ self.old.rules }
    {
        self.ends.remove(rule);
    }

    // Puts a row in place of that of a rule that was counted. It takes no memory.
    pub(crate) fn set_row(&mut self, rule: usize, row: &[Weights])
        requires rule { rule < self.old.rules }
        requires width { length row.now ≤ MOST_SEGMENTS }
        ensures rows { self.new.rows ≡ set self.old.rows rule row.now }
        ensures room { length self.new.rows ≡ length self.old.rows }
        ensures rules { self.new.rules ≡ self.old.rules }
    {
        let from = start_of(self.ends.as_slice(), rule);
        let to = self.ends[rule] as usize;
        put_between(&mut self.segments, from, to, row);
        move_ends(&mut self.ends, rule, to, from + row.len());
    }
}

// The weights of a rule's segment, and none where there is no such segment.
fn segment_at(segments: &[Weights], ends: &[u32], rule: usize, segment: usize) -> Weights
    requires { AreCut 0 segments.now ends.now }
    ensures { result ≡ get_or (get_or (cut_rows 0 segments.now ends.now) rule no_row) segment no_weights }
{
    if rule >= ends.len() {
        return NO_WEIGHTS;
    }
    let start = start_of(ends, rule);
    let end = ends[rule] as usize;
    if segment < end - start {
        segments[start + segment]
    } else {
        NO_WEIGHTS
    }
}

// Where a rule's segments begin, or would begin behind the others.
fn start_of(ends: &[u32], rule: usize) -> usize
    requires { rule ≤ length ends.now }
    ensures { result ≡ get_or (0 ∷ ends.now) rule 0 }
{
    if rule == 0 {
        0
    } else {
        ends[rule - 1] as usize
    }
}
