// The sums along the tour of one rule's body.
ghost use Rattle.std.specs.Prelude.{◌≡◌, ◌<◌, ◌≤◌, ◌+◌, ◌^◌, ℕ, true, false, get_or, length, slice_get};
ghost use Rattle.segment_counts.specs.Counting.{weight_by};
ghost use Rattle.segment_counts.specs.Tallies.{Adds, limit_by, row_of, tally_by};
ghost use Rattle.segment_counts.specs.Weights.{valued};
ghost use Rattle.segment_counts.specs.declared.counts.Measure.{Measure};

use crate::counts::{MOST_SEGMENTS, NO_WEIGHTS, Weights};
use plain_tree::Names;
use slt_grammar::Label;

// The limit of a document: with its bottoms it still has fewer than 2^64.
const MOST_NODES: u64 = (1 << 63) - 1;

// The weights of a rule's segments so far, the segment in which the tour stands, and the weights of all so far.
#[derive(Clone, Copy, Drop)]
pub(crate) struct Tallies {
    pub(crate) sums: [Weights; MOST_SEGMENTS],
    pub(crate) at: usize,
    pub(crate) total: Weights,
}

impl Tallies {
    pub(crate) fn new() -> Tallies
        ensures sums { (m : Measure) (i : ℕ) → get_or (tally_by m result).sums i 0 ≡ 0 }
        ensures width { (m : Measure) → length (tally_by m result).sums ≡ 9 }
        ensures at { (m : Measure) → (tally_by m result).at ≡ 0 }
        ensures total { (m : Measure) → (tally_by m result).total ≡ 0 }
    {
        Tallies {
            sums: [NO_WEIGHTS; MOST_SEGMENTS],
            at: 0,
            total: NO_WEIGHTS,
        }
    }

    // Takes in a label, and answers false where a limit would be passed.
    pub(crate) fn add(&mut self, label: Label, weights: Weights) -> bool
        requires at { self.old.at < 9 }
        requires under { (m : Measure) (i : ℕ) → get_or (tally_by m self.old).sums i 0 ≤ (tally_by m self.old).total }
        requires total { (m : Measure) → (tally_by m self.old).total ≤ limit_by m }
        ensures adds { result ≡ true → (m : Measure) → Adds label (weight_by m weights) (tally_by m self.old) (tally_by m self.new) }
        ensures small { result ≡ true → (m : Measure) → (tally_by m self.new).total ≤ limit_by m }
        ensures many { result ≡ false → (m : Measure) × (limit_by m < (tally_by m self.old).total + weight_by m weights) }
    {
        if let Label::Param = label {
            self.at += 1;
            return true;
        }
        if !self.total.have_room_for(weights) {
            return false;
        }
        self.sums[self.at] = self.sums[self.at].plus(weights);
        self.total = self.total.plus(weights);
        true
    }

    // The sums of the segments up to the one in which the tour stands.
    pub(crate) fn row(&self) -> &[Weights]
        requires { self.now.at < MOST_SEGMENTS }
        ensures { result.now ≡ row_of self.now }
    {
        &self.sums[..self.at + 1]
    }
}

impl Weights {
    // Whether no limit is passed where others are added.
    fn have_room_for(self, others: Weights) -> bool
        requires { (m : Measure) → weight_by m self ≤ limit_by m }
        ensures small { result ≡ true → (m : Measure) → weight_by m self + weight_by m others ≤ limit_by m }
        ensures many { result ≡ false → (m : Measure) × (limit_by m < weight_by m self + weight_by m others) }
    {
        if others.nodes > MOST_NODES - self.nodes {
            return false;
        }
        if others.texts > u64::MAX - self.texts {
            return false;
        }
        others.all <= u64::MAX - self.all
    }

    /// Both together.
    pub fn plus(self, others: Weights) -> Weights
        requires { (m : Measure) → weight_by m self + weight_by m others < 2 ^ 64 }
        ensures { (m : Measure) → weight_by m result ≡ weight_by m self + weight_by m others }
    {
        Weights {
            nodes: self.nodes + others.nodes,
            texts: self.texts + others.texts,
            all: self.all + others.all,
        }
    }
}

// How many texts a node of this symbol has: one or none.
pub(crate) fn texts_of(names: &Names, symbol: usize) -> u64
    ensures { result ≡ valued (slice_get names.now symbol) }
{
    match names.at(symbol) {
        Some((kind, _name)) if kind.has_value() => 1,
        _ => 0,
    }
}
