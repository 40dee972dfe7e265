// What numbers count.
ghost use Rattle.std.specs.Prelude.{◌≡◌, List, [], ◌∷◌, length, sum_by};
ghost use Rattle.slt_grammar.specs.Bodies.{CallsBelow};
ghost use Rattle.slt_grammar.specs.Segments.{part_of};
ghost use Rattle.slt_grammar.specs.declared.rules.Rule.{Rule};
ghost use Rattle.segment_counts.specs.Counting.{weight_by};
ghost use Rattle.preorder_address.specs.Numberings.{measure_of};
ghost use Rattle.preorder_address.specs.Told.{told_part};

use segment_counts::{Counts, Measure, Weights};
use slt_grammar::Label;

/// What the numbers of a descent count.
#[derive(Clone, Copy, Drop)]
pub enum Numbering {
    /// The nodes that aren't bottom.
    Nodes,
    /// The nodes and the bottoms.
    All,
}

impl Numbering {
    pub(crate) fn measure(self) -> Measure
        ensures { result ≡ measure_of self }
    {
        match self {
            Numbering::Nodes => Measure::Nodes,
            Numbering::All => Measure::All,
        }
    }

    // How many numbers are counted by weights.
    pub(crate) fn of(self, weights: Weights) -> u64
        ensures { result ≡ weight_by (measure_of self) weights }
    {
        match self {
            Numbering::Nodes => weights.nodes,
            Numbering::All => weights.all,
        }
    }

    // How many numbers fall into a part of a node.
    pub(crate) fn weight(self, counts: &Counts, label: Label, part: usize) -> u64
        ensures { result ≡ told_part self counts.now label part }
    {
        match (label, part) {
            (Label::Call(rule), _) => counts.get(self.measure(), rule, part),
            (Label::Symbol(_), 0) => 1,
            (Label::Bottom, 0) => match self {
                Numbering::Nodes => 0,
                Numbering::All => 1,
            },
            _ => 0,
        }
    }
}
