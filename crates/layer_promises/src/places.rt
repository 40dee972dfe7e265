// Where numbers lead, as preorder_address promises it.
ghost use Rattle.std.specs.Prelude.{◌≡◌, ◌↔◌, ◌<◌, ◌-◌, IsSome, IfSome, ℕ, ◌≤◌, ◌+◌, ◌*◌, List, IsOk, IfOk};
ghost use Rattle.plain_tree.specs.Tree.{Tree, none, more, Trees};
ghost use Rattle.plain_tree.specs.declared.kind.Kind.{Kind};
ghost use Rattle.slt_grammar.specs.Coding.{Codes};
ghost use Rattle.slt_grammar.specs.Grammars.{value, whole};
ghost use Rattle.slt_grammar.specs.Keyed.{IsKeyed, Keyed, rules_of};
ghost use Rattle.segment_counts.specs.Counting.{told};
ghost use Rattle.segment_counts.specs.declared.counts.Measure.TheVariants.{All, Nodes};
ghost use Rattle.preorder_address.specs.Chains.{LeadsToNumber};
ghost use Rattle.preorder_address.specs.Descents.{descent_to};
ghost use Rattle.preorder_address.specs.Numberings.{AreCountsOf};
ghost use Rattle.preorder_address.specs.TreeNumbers.{next_sibling_at, IsLastAbove, parent_at};
ghost use Rattle.preorder_address.specs.declared.numbering.Numbering.TheVariants as by;

use preorder_address::{Descent, locate_place, next_sibling, parent_of};
use read_steps::Steps;
use segment_counts::Counts;
use slt_grammar::Grammar;
use std::alloc::AllocError;
use std::sync::ledger::Ledger;

/// A descent to the node or bottom at this place.
pub fn locate_place_told(counts: &Counts, place: u64) -> Option<Descent>
    ensures some { IsSome result ↔ place < told All counts.now.rows (counts.now.rules - 1) 0 }
    ensures descent { IfSome result (λ descent. descent ≡ descent_to by.All (counts.now.rules - 1) place) }
    ensures leads { (g : Keyed) → IsKeyed g → AreCountsOf (rules_of g.rules) counts.now → IfSome result (LeadsToNumber by.All g.rules place) }
{
    locate_place(counts, place)
}

/// The number of the next sibling of a node, by few reads.
pub fn next_sibling_told<L: Ledger>(
    grammar: &Grammar,
    counts: &Counts,
    number: u64,
    steps: &mut Steps<L>,
) -> Option<Option<u64>>
    requires counts { AreCountsOf (rules_of grammar.now.rules) counts.now }
    ensures next { (names : List (Kind × List ℕ)) (t : Tree) → Codes names (more t none) (value (rules_of grammar.now.rules))
        → result ≡ next_sibling_at t number }
    ensures some { IsSome result ↔ number < told Nodes counts.now.rows (counts.now.rules - 1) 0 }
    ensures steps { steps.new ≤ steps.old + 14 * whole (rules_of grammar.now.rules) + 1 }
{
    next_sibling(grammar, counts, number, steps)
}

/// The number of the node above a node, by few reads.
pub fn parent_told<L: Ledger>(
    grammar: &Grammar,
    counts: &Counts,
    number: u64,
    steps: &mut Steps<L>,
) -> Result<Option<Option<u64>>, AllocError>
    requires counts { AreCountsOf (rules_of grammar.now.rules) counts.now }
    ensures fine { IsOk result }
    ensures parent { (names : List (Kind × List ℕ)) (ts : Trees) → Codes names ts (value (rules_of grammar.now.rules)) → IfOk result (λ told. told ≡ parent_at ts number) }
    ensures above { (names : List (Kind × List ℕ)) (ts : Trees) → Codes names ts (value (rules_of grammar.now.rules)) → IfOk result (λ told. IfSome told (IsLastAbove ts number)) }
    ensures some { IfOk result (λ parent. IsSome parent ↔ number < told Nodes counts.now.rows (counts.now.rules - 1) 0) }
    ensures steps { steps.new ≤ steps.old + 24 * whole (rules_of grammar.now.rules) }
{
    parent_of(grammar, counts, number, steps)
}
