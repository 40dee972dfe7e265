// What stands at the node with a number.
ghost use Rattle.std.specs.Prelude.{◌≡◌, ◌↔◌, ℕ, ◌≤◌, ◌+◌, ◌*◌, ◌-◌, ◌<◌, List, IsSome};
ghost use Rattle.plain_tree.specs.declared.kind.Kind.{Kind};
ghost use Rattle.plain_tree.specs.Tree.{Tree, Trees, none, more};
ghost use Rattle.slt_grammar.specs.Coding.{Codes};
ghost use Rattle.slt_grammar.specs.Grammars.{value, whole};
ghost use Rattle.slt_grammar.specs.Keyed.{rules_of};
ghost use Rattle.rule_arena.specs.declared.label.Label.{Label};
ghost use Rattle.segment_counts.specs.Counting.{AreCounts, told};
ghost use Rattle.segment_counts.specs.declared.counts.Measure.TheVariants.{Nodes};
ghost use Rattle.preorder_address.specs.Chains.{LeadsTo};
ghost use Rattle.preorder_address.specs.Descents.{IsInside, levels_of, steps_of};
ghost use Rattle.preorder_address.specs.Numberings.{AreCountsOf};
ghost use Rattle.preorder_address.specs.TreeNumbers.{extent_at, kind_at, text_rank_at};

use crate::descent::{Descent, locate};
use crate::site::site_of;
use crate::weigher::Weigher;
use plain_tree::{Kind, Names};
use read_steps::Steps;
use segment_counts::Counts;
use slt_grammar::{Grammar, Label};
use std::sync::ledger::Ledger;

/// The kind of the node with this number, and None exactly where the number isn't below the total. The grammar's symbols are places
/// in `names`. At most four steps for each node of the bodies, and one more.
pub fn kind_of<L: Ledger>(
    grammar: &Grammar,
    counts: &Counts,
    names: &Names,
    number: u64,
    steps: &mut Steps<L>,
) -> Option<Kind>
    requires counts { AreCountsOf (rules_of grammar.now.rules) counts.now }
    ensures kind { (t : Tree) → Codes names.now (more t none) (value (rules_of grammar.now.rules)) → result ≡ kind_at t number }
    ensures below { IsSome result → number < told Nodes counts.now.rows (counts.now.rules - 1) 0 }
    ensures some { (ts : Trees) → Codes names.now ts (value (rules_of grammar.now.rules))
        → (IsSome result ↔ number < told Nodes counts.now.rows (counts.now.rules - 1) 0) }
    ensures steps { steps.new ≤ steps.old + 4 * whole (rules_of grammar.now.rules) + 1 }
{
    // The call tells what is true of every grammar.
    let _limit = grammar.limit();
    let descent = locate(counts, number)?;
    let Label::Symbol(symbol) = label_of(grammar, counts, descent, steps) else {
        return None;
    };
    let (kind, _name) = names.at(symbol)?;
    Some(kind)
}

/// How many values belong to nodes with smaller numbers, and None exactly where the number isn't below the total. `counts` are by
/// `names`, in which the grammar's symbols are places. At most ten steps for each node of the bodies.
pub fn text_rank<L: Ledger>(
    grammar: &Grammar,
    counts: &Counts,
    names: &Names,
    number: u64,
    steps: &mut Steps<L>,
) -> Option<u64>
    requires counts { AreCounts names.now (rules_of grammar.now.rules) counts.now }
    ensures rank { (t : Tree) → Codes names.now (more t none) (value (rules_of grammar.now.rules)) → result ≡ text_rank_at t number }
    ensures some { IsSome result ↔ number < told Nodes counts.now.rows (counts.now.rules - 1) 0 }
    ensures steps { steps.new ≤ steps.old + 10 * whole (rules_of grammar.now.rules) }
{
    // The call tells what is true of every grammar.
    let _limit = grammar.limit();
    let site = site_of(grammar, counts, &Weigher::Texts(names), number, steps)?;
    Some(site.before)
}

/// How many nodes are below the node with this number, and None exactly where the number isn't below the total. At most ten steps for
/// each node of the bodies.
pub fn extent<L: Ledger>(
    grammar: &Grammar,
    counts: &Counts,
    number: u64,
    steps: &mut Steps<L>,
) -> Option<u64>
    requires counts { AreCountsOf (rules_of grammar.now.rules) counts.now }
    ensures extent { (names : List (Kind × List ℕ)) (t : Tree) → Codes names (more t none) (value (rules_of grammar.now.rules)) → result ≡ extent_at t number }
    ensures some { IsSome result ↔ number < told Nodes counts.now.rows (counts.now.rules - 1) 0 }
    ensures steps { steps.new ≤ steps.old + 10 * whole (rules_of grammar.now.rules) }
{
    // The call tells what is true of every grammar.
    let _limit = grammar.limit();
    let site = site_of(grammar, counts, &Weigher::All, number, steps)?;
    // Each node below it and its bottom, and the last bottom.
    Some(site.below / 2)
}

// The label of the node to which a descent leads.
pub(crate) fn label_of<L: Ledger>(
    grammar: &Grammar,
    counts: &Counts,
    mut descent: Descent,
    steps: &mut Steps<L>,
) -> Label
    requires counts { AreCountsOf (rules_of grammar.now.rules) counts.now }
    requires inside { IsInside grammar.now.rules descent }
    requires leads { (r : ℕ) × (label : Label) × LeadsTo grammar.now.rules r (levels_of grammar.now.rules descent) label }
    ensures label { (r : ℕ) (label : Label) → LeadsTo grammar.now.rules r (levels_of grammar.now.rules descent) label → result ≡ label }
    ensures steps { steps.new ≤ steps.old + steps_of grammar.now.rules descent + 1 }
{
    let mut last = None;
    while let Some(level) = descent.next(grammar, counts, steps) {
        last = Some(level.key);
    }
    let Some(key) = last else { unreachable!() };
    grammar.site(key, steps).label
}
