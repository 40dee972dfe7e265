// Marks that move with a change of the value at one node or place.
ghost use Rattle.std.specs.Prelude.{◌≡◌, ◌≤◌, ℕ, List, length};
ghost use Rattle.plain_tree.specs.declared.kind.Kind.{Kind};
ghost use Rattle.plain_tree.specs.NodePairs.{Pair};
ghost use Rattle.slt_grammar.specs.Grammars.{IsGrammar};
ghost use Rattle.slt_grammar.specs.Keyed.{KeyedRule, rules_of};
ghost use Rattle.start_fronts.specs.Moved.{MovesBefore};
ghost use Rattle.segment_counts.specs.Counting.{AreCounts};
ghost use Rattle.segment_counts.specs.Weights.{weigh};
ghost use Rattle.preorder_address.specs.Marks.{AreMarks};
ghost use Rattle.preorder_address.specs.Numberings.{measure_of};
ghost use Rattle.start_marks.specs.Moving.{AreWeightsOf};
ghost use Rattle.tree_updates.specs.Fronts.{first_key, first_keys};

use crate::store::Store;
use preorder_address::{Marks, Numbering, Shift};
use segment_counts::{Counts, Weights};
use slt_grammar::{Key, Level};

// What the value weighs whose counts these are.
pub(crate) fn whole_weights(counts: &Counts) -> Weights
    ensures { (names : List (Kind × List ℕ)) (G : List KeyedRule) → AreCounts names (rules_of G) counts.now → IsGrammar (rules_of G) → AreWeightsOf names G result }
{
    counts.at(counts.rules().saturating_sub(1), 0)
}

// Moves the marks with a change of the store's document at the node or place with this number, to which the levels led, by what the value
// weighed before. Names that came with the change take all marks away: they are marks by so many names.
pub(crate) fn move_marks(
    marks: &mut Marks,
    store: &Store,
    named: usize,
    by: Numbering,
    number: u64,
    levels: &[Level],
    had: Weights,
)
    ensures { (names : List Pair) (G : List KeyedRule)
        → (length store.now.names ≤ named → AreMarks names G marks.old × MovesBefore (weigh names (measure_of by)) (first_keys levels.now) number G store.now.grammar.rules
        × AreWeightsOf names G had × AreCounts names (rules_of store.now.grammar.rules) store.now.counts)
        → AreMarks names store.now.grammar.rules marks.new }
{
    if named < store.names.len() {
        marks.clear();
        return;
    }
    // The call tells what is true of every grammar.
    let _limit = store.grammar.limit();
    let shift = Shift {
        by,
        number,
        had,
        has: whole_weights(&store.counts),
    };
    marks.shift(&shift, key_of_first(levels));
}

fn key_of_first(levels: &[Level]) -> Option<Key>
    ensures { result ≡ first_key levels.now }
{
    match levels.first() {
        Some(level) => Some(level.key),
        None => None,
    }
}
