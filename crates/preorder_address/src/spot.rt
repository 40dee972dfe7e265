// One descent that tells all about a node.
ghost use Rattle.std.specs.Prelude.{◌≡◌, ◌↔◌, ℕ, ◌<◌, ◌≤◌, ◌+◌, ◌-◌, ◌*◌, ◌^◌, [], ◌∷◌, List, Some, IsSome, IfOk, IfSome, IfNone, length, slice_get, sum_by};
ghost use Rattle.plain_tree.specs.declared.kind.Kind.{Kind};
ghost use Rattle.plain_tree.specs.Tree.{Tree, none, more};
ghost use Rattle.rule_arena.specs.declared.label.Label.TheVariants.{Call, Symbol};
ghost use Rattle.slt_grammar.specs.Bodies.{CallsBelow};
ghost use Rattle.slt_grammar.specs.Coding.{Codes};
ghost use Rattle.slt_grammar.specs.Grammars.{value, whole};
ghost use Rattle.slt_grammar.specs.Keyed.{IsKeyed, KeyedRule, rules_of};
ghost use Rattle.slt_grammar.specs.Segments.{node_tour, preorder};
ghost use Rattle.segment_counts.specs.Counting.{AreCounts, told, told_before, weight_by};
ghost use Rattle.segment_counts.specs.Weights.{node_weight, weigh};
ghost use Rattle.segment_counts.specs.declared.counts.Measure.{Measure};
ghost use Rattle.segment_counts.specs.declared.counts.Measure.TheVariants.{Nodes};
ghost use Rattle.preorder_address.specs.Chains.{LeadsToNumber};
ghost use Rattle.preorder_address.specs.Descents.{descent_to};
ghost use Rattle.preorder_address.specs.declared.numbering.Numbering.TheVariants as by;
ghost use Rattle.preorder_address.specs.Marks.{AreMarks, HasPassed, IsMark, MarksFirst};
ghost use Rattle.preorder_address.specs.Numberings.{measure_of};
ghost use Rattle.preorder_address.specs.Spots.{FallsWeighed, IsSpot, StandsAfter, place_at};
ghost use Rattle.preorder_address.specs.TreeNumbers.{kind_at, text_rank_at};

use crate::descent::Wanted;
use crate::marks::{Mark, Marks, mark_at};
use crate::numbering::Numbering;
use plain_tree::{Kind, Names};
use read_steps::Steps;
use segment_counts::{Counts, Measure, Weights};
use slt_grammar::{Grammar, Label, Level, TourWalk};
use std::alloc::{AllocError, Global};
use std::sync::ledger::Ledger;

const NO_WEIGHTS: Weights = Weights {
    nodes: 0,
    texts: 0,
    all: 0,
};

/// What one descent tells about a node: the levels that lead there, its symbol, what stands before it, and the mark of its first level's node.
#[derive(Drop)]
pub struct Spot {
    pub(crate) levels: Vec<Level>,
    pub(crate) symbol: usize,
    pub(crate) before: Weights,
    pub(crate) first: Option<Mark>,
}

// The symbol of a node, what stands before it, and the mark of its first level's node.
#[derive(Clone, Copy, Drop)]
pub(crate) struct SpotNode {
    pub(crate) symbol: usize,
    pub(crate) before: Weights,
    pub(crate) first: Option<Mark>,
}

// A walk along a rule's tour, and what it passed.
#[derive(Clone, Copy, Drop)]
pub(crate) struct WeighedWalk {
    pub(crate) walk: TourWalk,
    pub(crate) passed: Weights,
}

// The part of a node into which a number falls, and what the rule's tour passes before.
#[derive(Clone, Copy, Drop)]
pub(crate) struct WeighedStop {
    pub(crate) walk: TourWalk,
    pub(crate) label: Label,
    pub(crate) passed: Weights,
}

/// The spot of the node with this number, and None exactly where the number isn't below the total. `counts` are by `names`. It is
/// refused for want of memory for the levels alone. At most four steps for each node of the bodies.
pub fn find<L: Ledger>(
    alloc: Global,
    grammar: &Grammar,
    counts: &Counts,
    names: &Names,
    number: u64,
    steps: &mut Steps<L>,
) -> Result<Option<Spot>, AllocError>
    requires counts { AreCounts names.now (rules_of grammar.now.rules) counts.now }
    ensures spot { IfOk result (λ spot. IfSome spot (IsSpot names.now grammar.now.rules number)) }
    ensures leads { IfOk result (λ spot. IfSome spot (λ spot. LeadsToNumber by.Nodes grammar.now.rules number (descent_to by.Nodes (length grammar.now.rules - 1) number))) }
    ensures some { IfOk result (λ spot. IsSome spot ↔ number < told Nodes counts.now.rows (counts.now.rules - 1) 0) }
    ensures steps { steps.new ≤ steps.old + 4 * whole (rules_of grammar.now.rules) }
{
    let mut marks = Marks::new(alloc);
    find_marked(alloc, grammar, counts, names, number, &mut marks, steps)
}

/// The spot that `find` answers. The search along the start begins at the last mark before the node, and leaves marks where it passes more
/// stops than lie between two.
pub fn find_marked<L: Ledger>(
    alloc: Global,
    grammar: &Grammar,
    counts: &Counts,
    names: &Names,
    number: u64,
    marks: &mut Marks,
    steps: &mut Steps<L>,
) -> Result<Option<Spot>, AllocError>
    requires counts { AreCounts names.now (rules_of grammar.now.rules) counts.now }
    requires marks { AreMarks names.now grammar.now.rules marks.old }
    ensures spot { IfOk result (λ spot. IfSome spot (IsSpot names.now grammar.now.rules number)) }
    ensures leads { IfOk result (λ spot. IfSome spot (λ spot. LeadsToNumber by.Nodes grammar.now.rules number (descent_to by.Nodes (length grammar.now.rules - 1) number))) }
    ensures some { IfOk result (λ spot. IsSome spot ↔ number < told Nodes counts.now.rows (counts.now.rules - 1) 0) }
    ensures marks { AreMarks names.now grammar.now.rules marks.new }
    ensures first { IfOk result (λ spot. IfSome spot (λ spot. MarksFirst names.now grammar.now.rules spot.levels.items spot.first)) }
    ensures steps { steps.new ≤ steps.old + 4 * whole (rules_of grammar.now.rules) }
{
    // The call tells what is true of every grammar.
    let _limit = grammar.limit();
    if number >= counts.total() {
        return Ok(None);
    }
    let mut levels = Vec::new(alloc);
    let node = descend(grammar, counts, names, number, &mut levels, marks, steps)?;
    Ok(Some(Spot {
        levels,
        symbol: node.symbol,
        before: node.before,
        first: node.first,
    }))
}

impl Spot {
    /// The node's kind. The spot was found by `names`.
    pub fn kind(&self, names: &Names) -> Option<Kind>
        ensures { (G : List KeyedRule) (number : ℕ) (t : Tree) → IsSpot names.now G number self.now → Codes names.now (more t none) (value (rules_of G)) → result ≡ kind_at t number }
    {
        let (kind, _name) = names.at(self.symbol)?;
        Some(kind)
    }

    /// The node's symbol.
    pub fn symbol(&self) -> usize
        ensures { result ≡ self.now.symbol }
    {
        self.symbol
    }

    /// The levels that lead to the node, the start rule's first.
    pub fn levels(&self) -> &[Level]
        ensures { result.now ≡ self.now.levels.items }
    {
        self.levels.as_slice()
    }

    /// The mark of the first level's node, where the number falls before that node's kids.
    pub fn first(&self) -> Option<Mark>
        ensures { result ≡ self.now.first }
    {
        self.first
    }

    /// How many values belong to nodes with smaller numbers.
    pub fn text_rank(&self) -> u64
        ensures { (names : List (Kind × List ℕ)) (G : List KeyedRule) (number : ℕ) (t : Tree) → IsSpot names G number self.now → Codes names (more t none) (value (rules_of G))
            → Some result ≡ text_rank_at t number }
    {
        self.before.texts
    }

    /// The node's place: how many nodes and bottoms stand before it.
    pub fn place(&self) -> u64
        ensures { (names : List (Kind × List ℕ)) (G : List KeyedRule) (number : ℕ) (t : Tree) → IsSpot names G number self.now → Codes names (more t none) (value (rules_of G))
            → Some result ≡ place_at t number }
    {
        self.before.all
    }
}

// Goes down to a number of the grammar's value, and writes down the levels.
fn descend<L: Ledger>(
    grammar: &Grammar,
    counts: &Counts,
    names: &Names,
    number: u64,
    levels: &mut Vec<Level>,
    marks: &mut Marks,
    steps: &mut Steps<L>,
) -> Result<SpotNode, AllocError>
    requires keyed { IsKeyed grammar.now }
    requires counts { AreCounts names.now (rules_of grammar.now.rules) counts.now }
    requires number { number < sum_by node_weight (preorder (rules_of grammar.now.rules) (length grammar.now.rules - 1)) }
    requires empty { levels.old.items ≡ [] }
    requires marks { AreMarks names.now grammar.now.rules marks.old }
    ensures spot { IfOk result (λ node. StandsAfter names.now grammar.now.rules number levels.new.items node.symbol node.before) }
    ensures marks { AreMarks names.now grammar.now.rules marks.new }
    ensures first { IfOk result (λ node. MarksFirst names.now grammar.now.rules levels.new.items node.first) }
    ensures steps { steps.new ≤ steps.old + 4 * whole (rules_of grammar.now.rules) }
{
    let mut rule = grammar.rules() - 1;
    let mut before = NO_WEIGHTS;
    let mut first = None;
    'down: loop {
        let wanted = Wanted {
            rule,
            number: number - before.nodes,
        };
        let WeighedStop {
            walk,
            label,
            passed,
        } = find_stop(
            grammar,
            counts,
            names,
            Numbering::Nodes,
            wanted,
            marks,
            steps,
        );
        let part = walk.part;
        first = first_mark(grammar, rule, &walk, passed, first);
        levels.push(Level {
            rule,
            key: walk.key,
        })?;
        let Some(called) = called_rule(label) else {
            return Ok(SpotNode {
                symbol: symbol_of(label),
                before: before.plus(passed),
                first,
            });
        };
        before = before_rule(counts, before, passed, called, part);
        rule = called;
    }
}

// The mark of the first level's node, once a level's node was found: the first level is the start's.
fn first_mark(
    grammar: &Grammar,
    rule: usize,
    walk: &TourWalk,
    passed: Weights,
    first: Option<Mark>,
) -> Option<Mark>
    requires keyed { IsKeyed grammar.now }
    requires rule { rule < length grammar.now.rules }
    ensures start { (names : List (Kind × List ℕ)) → rule + 1 ≡ length grammar.now.rules → HasPassed names grammar.now.rules rule walk.now passed
        → IfSome result (λ mark. IsMark names grammar.now.rules mark × (mark.key ≡ walk.now.key)) }
    ensures below { rule + 1 < length grammar.now.rules → result ≡ first }
{
    let start = grammar.rules() - 1;
    if rule < start {
        return first;
    }
    mark_at(walk, passed)
}

// Where the search for a number of a rule begins: of the start at a mark.
fn begin(grammar: &Grammar, by: Numbering, wanted: Wanted, marks: &Marks) -> WeighedWalk
    requires keyed { IsKeyed grammar.now }
    requires rule { wanted.rule < length grammar.now.rules }
    ensures passed { (names : List (Kind × List ℕ)) → AreMarks names grammar.now.rules marks.now → HasPassed names grammar.now.rules wanted.rule result.walk result.passed }
    ensures under { weight_by (measure_of by) result.passed ≤ wanted.number }
{
    let start = grammar.rules() - 1;
    if wanted.rule == start {
        if let Some(mark) = marks.last_up_to(by, wanted.number) {
            return WeighedWalk {
                walk: mark.walk(),
                passed: mark.passed,
            };
        }
    }
    WeighedWalk {
        walk: TourWalk::new(grammar, wanted.rule),
        passed: NO_WEIGHTS,
    }
}

// Marks a stop of the start where that is due, and answers how many stops were passed since the last mark. Of another rule it marks none.
fn note(
    grammar: &Grammar,
    rule: usize,
    marks: &mut Marks,
    walk: &TourWalk,
    passed: Weights,
    since: usize,
) -> usize
    requires keyed { IsKeyed grammar.now }
    requires rule { rule < length grammar.now.rules }
    ensures marks { (names : List (Kind × List ℕ)) → AreMarks names grammar.now.rules marks.old → HasPassed names grammar.now.rules rule walk.now passed
        → AreMarks names grammar.now.rules marks.new }
{
    let start = grammar.rules() - 1;
    if rule < start {
        return since;
    }
    marks.note(walk, passed, since)
}

// The part of a node of a rule's body into which a number falls.
pub(crate) fn find_stop<L: Ledger>(
    grammar: &Grammar,
    counts: &Counts,
    names: &Names,
    by: Numbering,
    wanted: Wanted,
    marks: &mut Marks,
    steps: &mut Steps<L>,
) -> WeighedStop
    requires keyed { IsKeyed grammar.now }
    requires counts { AreCounts names.now (rules_of grammar.now.rules) counts.now }
    requires rule { wanted.rule < length grammar.now.rules }
    requires number { wanted.number < sum_by (weigh names.now (measure_of by)) (preorder (rules_of grammar.now.rules) wanted.rule) }
    requires marks { AreMarks names.now grammar.now.rules marks.old }
    ensures falls { FallsWeighed names.now grammar.now.rules by wanted.rule wanted.number result }
    ensures marks { AreMarks names.now grammar.now.rules marks.new }
    ensures calls { CallsBelow wanted.rule (result.label ∷ []) }
    ensures steps { steps.new ≤ steps.old + 2 * length (node_tour grammar.now.rules wanted.rule) }
{
    let begun = begin(grammar, by, wanted, marks);
    let mut walk = begun.walk;
    let mut passed = begun.passed;
    let mut since = 0;
    'stops: loop {
        let site = grammar.site(walk.key, steps);
        let weights = counts.weights(names, site.label, walk.part);
        let before = by.of(passed);
        let left = wanted.number - before;
        let here = by.of(weights);
        if left < here {
            return WeighedStop {
                walk,
                label: site.label,
                passed,
            };
        }
        passed = passed.plus(weights);
        if !walk.advance(grammar, &site, steps) {
            unreachable!()
        }
        since = note(grammar, wanted.rule, marks, &walk, passed, since);
    }
}

// The level at a place of a list, and None where there is none.
pub(crate) fn level_at(levels: &[Level], place: usize) -> Option<Level>
    ensures { result ≡ slice_get levels.now place }
{
    levels.get(place).copied()
}

// The rule that a node calls.
fn called_rule(label: Label) -> Option<usize>
    ensures call { IfSome result (λ rule. label ≡ Call rule) }
    ensures none { IfNone result ((rule : ℕ) → label ≡ Call rule → ⊥) }
{
    match label {
        Label::Call(rule) => Some(rule),
        _ => None,
    }
}

// A symbol's number.
fn symbol_of(label: Label) -> usize
    requires { (symbol : ℕ) × (label ≡ Symbol symbol) }
    ensures { label ≡ Symbol result }
{
    let Label::Symbol(symbol) = label else {
        unreachable!()
    };
    symbol
}

// What stands before the value of a rule that is called at a part: what is passed, but for the rule's own segments.
fn before_rule(
    counts: &Counts,
    before: Weights,
    passed: Weights,
    rule: usize,
    part: usize,
) -> Weights
    requires fits { (m : Measure) → weight_by m before + weight_by m passed < 2 ^ 64 }
    requires segments { (m : Measure) → told_before m counts.now.rows rule part ≤ weight_by m passed }
    ensures { (m : Measure) → weight_by m result + told_before m counts.now.rows rule part ≡ weight_by m before + weight_by m passed }
{
    let weights = before.plus(passed);
    let nodes = counts.before(Measure::Nodes, rule, part);
    let texts = counts.before(Measure::Texts, rule, part);
    let all = counts.before(Measure::All, rule, part);
    Weights {
        nodes: weights.nodes - nodes,
        texts: weights.texts - texts,
        all: weights.all - all,
    }
}
