// What is added up along a descent.
ghost use Rattle.std.specs.Prelude.{◌≡◌, ◌<◌, List, [], ◌∷◌, length, sum_by, slice_get};
ghost use Rattle.slt_grammar.specs.Algebras.{ranks_of};
ghost use Rattle.slt_grammar.specs.Bodies.{CallsBelow, arity};
ghost use Rattle.slt_grammar.specs.Grammars.{IsGrammar};
ghost use Rattle.slt_grammar.specs.Segments.{part_of};
ghost use Rattle.slt_grammar.specs.declared.rules.Rule.{Rule};
ghost use Rattle.rule_arena.specs.declared.label.Label.TheVariants.{Bottom, Symbol};
ghost use Rattle.segment_counts.specs.Weights.{valued};
ghost use Rattle.preorder_address.specs.Sites.{shape};
ghost use Rattle.preorder_address.specs.Weighing.{AreCountsBy, IsSmallCall, measure_by, params_at, weight_of};

use plain_tree::Names;
use segment_counts::{Counts, Measure};
use slt_grammar::Label;

// What each node and bottom weighs. A parameter weighs nothing by itself.
#[derive(Clone, Copy, Drop)]
pub(crate) enum Weigher<'a> {
    // The nodes with a text, by the names of the grammar's symbols.
    Texts(&'a Names),
    // The nodes.
    Nodes,
    // The nodes and the bottoms.
    All,
}

impl Weigher<'_> {
    pub(crate) fn measure(&self) -> Measure
        ensures { result ≡ measure_by self.now }
    {
        match self {
            Weigher::Texts(_) => Measure::Texts,
            Weigher::Nodes => Measure::Nodes,
            Weigher::All => Measure::All,
        }
    }

    fn symbol(&self, symbol: usize) -> u64
        ensures { result ≡ weight_of self.now (Symbol symbol) }
    {
        match self {
            Weigher::Texts(names) => texts_of(names, symbol),
            Weigher::Nodes | Weigher::All => 1,
        }
    }

    fn bottom(&self) -> u64
        ensures { result ≡ weight_of self.now Bottom }
    {
        match self {
            Weigher::Texts(_) | Weigher::Nodes => 0,
            Weigher::All => 1,
        }
    }

    // What a part of a node weighs.
    pub(crate) fn part(&self, counts: &Counts, label: Label, part: usize) -> u64
        ensures { (G : List Rule) → AreCountsBy self.now G counts.now → CallsBelow (length G) (label ∷ []) → result ≡ sum_by (weight_of self.now) (part_of G label part) }
    {
        match (label, part) {
            (Label::Call(rule), _) => counts.get(self.measure(), rule, part),
            (Label::Symbol(symbol), 0) => self.symbol(symbol),
            (Label::Bottom, 0) => self.bottom(),
            _ => 0,
        }
    }

    // What a node with some kids weighs in all its parts.
    pub(crate) fn whole(&self, counts: &Counts, label: Label, kids: usize) -> u64
        requires few { kids < 9 }
        requires small { IsSmallCall (measure_by self.now) counts.now label kids }
        ensures { (G : List Rule) → IsGrammar G → AreCountsBy self.now G counts.now → CallsBelow (length G) (label ∷ []) → kids ≡ arity (ranks_of G) label
            → params_at label ≡ 0 → result ≡ sum_by (weight_of self.now) (shape G label) }
    {
        match label {
            Label::Call(rule) => counts.before(self.measure(), rule, kids + 1),
            Label::Symbol(symbol) => self.symbol(symbol),
            Label::Bottom => self.bottom(),
            Label::Param => 0,
        }
    }
}

// How many texts a node of this symbol has: one or none.
fn texts_of(names: &Names, symbol: usize) -> u64
    ensures { result ≡ valued (slice_get names.now symbol) }
{
    match names.at(symbol) {
        Some((kind, _name)) if kind.has_value() => 1,
        _ => 0,
    }
}
