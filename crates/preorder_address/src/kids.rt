// Places in a node's list of kids.
ghost use Rattle.std.specs.Prelude.{◌≡◌, ◌↔◌, ℕ, ◌<◌, ◌≤◌, ◌+◌, ◌-◌, ◌*◌, List, Some, IsSome, IfSome, true, false, length, drop, take};
ghost use Rattle.plain_tree.specs.declared.kind.Kind.{Kind};
ghost use Rattle.plain_tree.specs.declared.kind.Kind.TheVariants.{Attribute};
ghost use Rattle.plain_tree.specs.Numbers.{nodes};
ghost use Rattle.plain_tree.specs.Tree.{Tree, none, more};
ghost use Rattle.slt_grammar.specs.Coding.{Codes};
ghost use Rattle.slt_grammar.specs.Grammars.{value, whole};
ghost use Rattle.slt_grammar.specs.Keyed.{rules_of};
ghost use Rattle.slt_grammar.specs.Segments.{preorder};
ghost use Rattle.slt_grammar.specs.Standing.{StandsFor};
ghost use Rattle.segment_counts.specs.Counting.{told};
ghost use Rattle.segment_counts.specs.Weights.{all_weight};
ghost use Rattle.segment_counts.specs.declared.counts.Measure.TheVariants.{Nodes, All};
ghost use Rattle.preorder_address.specs.Chains.{IsAt, LeadsToPlace};
ghost use Rattle.preorder_address.specs.Descents.{IsInside};
ghost use Rattle.preorder_address.specs.Numberings.{AreCountsOf};
ghost use Rattle.preorder_address.specs.Sites.{is_symbol};
ghost use Rattle.preorder_address.specs.TreeNumbers.{after_attributes_at, attributes_at, attributes_in, end_at, next_sibling_at};

use crate::descent::{Descent, locate_place};
use crate::nodes::{kind_of, label_of};
use crate::site::site_of;
use crate::weigher::Weigher;
use plain_tree::{Kind, Names};
use read_steps::Steps;
use segment_counts::Counts;
use slt_grammar::{Grammar, Label};
use std::sync::ledger::Ledger;

/// A descent to the bottom that ends the list of kids of the node with this number, and None exactly where the number isn't below the
/// total. At most ten steps for each node of the bodies.
pub fn end_of_kids<L: Ledger>(
    grammar: &Grammar,
    counts: &Counts,
    number: u64,
    steps: &mut Steps<L>,
) -> Option<Descent>
    requires counts { AreCountsOf (rules_of grammar.now.rules) counts.now }
    ensures end { (names : List (Kind × List ℕ)) (t : Tree) → Codes names (more t none) (value (rules_of grammar.now.rules))
        → LeadsToPlace grammar.now.rules result (end_at t number) }
    ensures some { IsSome result ↔ number < told Nodes counts.now.rows (counts.now.rules - 1) 0 }
    ensures inside { IfSome result (IsInside grammar.now.rules) }
    ensures steps { steps.new ≤ steps.old + 10 * whole (rules_of grammar.now.rules) }
{
    // The call tells what is true of every grammar.
    let _limit = grammar.limit();
    let site = site_of(grammar, counts, &Weigher::All, number, steps)?;
    locate_place(counts, site.before + site.below)
}

/// The number of the sibling that stands next behind the node with this number, attributes among them. The outer None comes exactly
/// where the number isn't below the total, the inner one where there is no such sibling. At most fourteen steps for each node of the
/// bodies, and one more.
pub fn next_sibling<L: Ledger>(
    grammar: &Grammar,
    counts: &Counts,
    number: u64,
    steps: &mut Steps<L>,
) -> Option<Option<u64>>
    requires counts { AreCountsOf (rules_of grammar.now.rules) counts.now }
    ensures next { (names : List (Kind × List ℕ)) (t : Tree) → Codes names (more t none) (value (rules_of grammar.now.rules))
        → result ≡ next_sibling_at t number }
    ensures some { IsSome result ↔ number < told Nodes counts.now.rows (counts.now.rules - 1) 0 }
    ensures steps { steps.new ≤ steps.old + 14 * whole (rules_of grammar.now.rules) + 1 }
{
    // The call tells what is true of every grammar.
    let _limit = grammar.limit();
    let site = site_of(grammar, counts, &Weigher::All, number, steps)?;
    // Behind the code of its kids begins that of its siblings.
    let behind = label_at(grammar, counts, site.before + site.below + 1, steps);
    if is_symbol(behind) {
        Some(Some(number + site.below / 2 + 1))
    } else {
        Some(None)
    }
}

fn is_symbol(label: Option<Label>) -> bool
    ensures { result ≡ is_symbol label }
{
    matches!(label, Some(Label::Symbol(_)))
}

// The label at a place of the grammar's value, counted with the bottoms, and None exactly where the place isn't below their total.
fn label_at<L: Ledger>(
    grammar: &Grammar,
    counts: &Counts,
    place: u64,
    steps: &mut Steps<L>,
) -> Option<Label>
    requires counts { AreCountsOf (rules_of grammar.now.rules) counts.now }
    ensures some { IsSome result ↔ place < told All counts.now.rows (counts.now.rules - 1) 0 }
    ensures counted { IfSome result (λ label. 0 < all_weight label) }
    ensures there { IfSome result (IsAt all_weight (preorder (rules_of grammar.now.rules) (length grammar.now.rules - 1)) place) }
    ensures steps { steps.new ≤ steps.old + 4 * whole (rules_of grammar.now.rules) + 1 }
{
    // The call tells what is true of every grammar.
    let _limit = grammar.limit();
    let descent = locate_place(counts, place)?;
    Some(label_of(grammar, counts, descent, steps))
}

/// A descent to the first kid, of the node with this number, that isn't an attribute, or to the bottom that ends the list of kids where
/// there is none. None comes exactly where the number isn't below the total. The grammar's symbols are places in `names`. At most ten
/// steps for each node of the bodies, and for each of the node's attributes and once more four for each of them and one.
pub fn after_attributes<L: Ledger>(
    grammar: &Grammar,
    counts: &Counts,
    names: &Names,
    number: u64,
    steps: &mut Steps<L>,
) -> Option<Descent>
    requires counts { AreCountsOf (rules_of grammar.now.rules) counts.now }
    ensures after { (values : List (List ℕ)) (t : Tree) → StandsFor (rules_of grammar.now.rules) names.now values t
        → LeadsToPlace grammar.now.rules result (after_attributes_at t number) }
    ensures some { IsSome result ↔ number < told Nodes counts.now.rows (counts.now.rules - 1) 0 }
    ensures inside { IfSome result (IsInside grammar.now.rules) }
    ensures steps { (values : List (List ℕ)) (t : Tree) → StandsFor (rules_of grammar.now.rules) names.now values t
        → steps.new ≤ steps.old + 10 * whole (rules_of grammar.now.rules) + (attributes_at t number + 1) * (4 * whole (rules_of grammar.now.rules) + 1) }
{
    // The call tells what is true of every grammar.
    let _limit = grammar.limit();
    let site = site_of(grammar, counts, &Weigher::All, number, steps)?;
    let extent = site.below / 2;
    let attributes = leading_attributes(grammar, counts, names, number + 1, extent, steps);
    // Attributes have no kids, so each has its own place and that of its bottom.
    locate_place(counts, site.before + 1 + 2 * attributes)
}

// How many nodes from a number on, at most `most`, are attributes before the first that isn't one.
fn leading_attributes<L: Ledger>(
    grammar: &Grammar,
    counts: &Counts,
    names: &Names,
    first: u64,
    most: u64,
    steps: &mut Steps<L>,
) -> u64
    requires counts { AreCountsOf (rules_of grammar.now.rules) counts.now }
    requires first { first ≤ told Nodes counts.now.rows (counts.now.rules - 1) 0 }
    ensures few { result ≤ most }
    ensures attributes { (t : Tree) → Codes names.now (more t none) (value (rules_of grammar.now.rules)) → result ≡ attributes_in (take most (drop first (nodes t))) }
    ensures steps { steps.new ≤ steps.old + (result + 1) * (4 * whole (rules_of grammar.now.rules) + 1) }
{
    // The call tells what is true of every grammar.
    let _limit = grammar.limit();
    for passed in 0..most {
        let kind = kind_of(grammar, counts, names, first + passed, steps);
        if !is_attribute(kind) {
            return passed;
        }
    }
    most
}

fn is_attribute(kind: Option<Kind>) -> bool
    ensures yes { result ≡ true → kind ≡ Some Attribute }
    ensures no { result ≡ false → kind ≡ Some Attribute → ⊥ }
{
    matches!(kind, Some(Kind::Attribute))
}
