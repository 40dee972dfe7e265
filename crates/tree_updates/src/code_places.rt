// Places of the code, made nodes of the start's body, and bodies that are put around them.
ghost use Rattle.std.specs.Prelude.{◌≡◌, ◌≤◌, ◌+◌, ◌-◌, ◌*◌, ℕ, length};
ghost use Rattle.slt_grammar.specs.Bodies.{real_nodes};
ghost use Rattle.slt_grammar.specs.ChangedValues.{start_body};
ghost use Rattle.slt_grammar.specs.Grammars.{size, value_at};
ghost use Rattle.slt_grammar.specs.Keyed.{rules_of};
ghost use Rattle.slt_grammar.specs.Ranks.{greatest_rank};
ghost use Rattle.slt_grammar.specs.RuleValues.{HaveOtherValues};
ghost use Rattle.slt_grammar.specs.Terms.{Term};
ghost use Rattle.start_fronts.specs.Before.{KeepsBefore};
ghost use Rattle.start_fronts.specs.Moved.{MovesBefore};
ghost use Rattle.segment_counts.specs.Weights.{all_weight};
ghost use Rattle.digram_index.specs.Linked.{IsIndexOf};
ghost use Rattle.path_isolation.specs.Isolations.{DifferInStart, room_along};
ghost use Rattle.tree_updates.specs.CodePlaces.{ComesAround, IsBodyOf, IsPlaceIsolated, LeadToPlace};
ghost use Rattle.tree_updates.specs.Fronts.{first_keys};

use digram_index::Index;
use linked_edits::wrap_linked;
use path_isolation::isolate_linked;
use read_steps::Steps;
use slt_grammar::{Body, Grammar, Key, Way};
use std::sync::ledger::Ledger;

// In the value the label at the place to which a way leads, with all below it, comes into the hole of a body's term. There is room for the
// nodes of the bodies on the way and for those of the body, and for as many links, so it takes no memory. Rules that nobody calls any more
// stay.
pub(crate) fn wrap_place<W: Way, L: Ledger>(
    grammar: &mut Grammar,
    index: &mut Index,
    way: W,
    body: &Body,
    steps: &mut Steps<L>,
)
    requires ready { W.ready way grammar.old.rules }
    requires leads { (place : ℕ) × LeadToPlace grammar.old.rules (W.levels way grammar.old.rules) place }
    requires body { (front : Term) × IsBodyOf front body.now }
    requires index { IsIndexOf grammar.old index.old }
    requires room { room_along grammar.old.rules (W.levels way grammar.old.rules) + length body.now ≤ grammar.old.spare_nodes }
    requires links { room_along grammar.old.rules (W.levels way grammar.old.rules) + length body.now ≤ index.old.spare_links }
    requires cells { grammar.old.limit ≤ length index.old.cells }
    ensures value { (place : ℕ) (front : Term) → LeadToPlace grammar.old.rules (W.levels way grammar.old.rules) place → IsBodyOf front body.now
        → ComesAround (rules_of grammar.old.rules) (rules_of grammar.new.rules) place front }
    ensures values { HaveOtherValues (length (rules_of grammar.old.rules) - 1) (rules_of grammar.old.rules) (rules_of grammar.new.rules) }
    ensures most { size (rules_of grammar.new.rules) + real_nodes (start_body (rules_of grammar.old.rules))
        ≤ 2 * size (rules_of grammar.old.rules) + real_nodes body.now }
    ensures ranks { greatest_rank (rules_of grammar.new.rules) ≤ greatest_rank (rules_of grammar.old.rules) }
    ensures index { IsIndexOf grammar.new index.new }
    ensures moves { (place : ℕ) → LeadToPlace grammar.old.rules (W.levels way grammar.old.rules) place
        → MovesBefore all_weight (first_keys (W.levels way grammar.old.rules)) place grammar.old.rules grammar.new.rules }
{
    let at = isolate_place(grammar, index, way, steps);
    // The calls tell what is true of every grammar.
    let _limit = grammar.limit();
    wrap_linked(grammar, index, at, body);
    let _after = grammar.limit();
}

// Makes the label at the place to which a way leads one of the start's body, and answers its node. There is room for the nodes of the bodies
// on the way, and for as many links, so it takes no memory.
fn isolate_place<W: Way, L: Ledger>(
    grammar: &mut Grammar,
    index: &mut Index,
    way: W,
    steps: &mut Steps<L>,
) -> Key
    requires ready { W.ready way grammar.old.rules }
    requires leads { (place : ℕ) × LeadToPlace grammar.old.rules (W.levels way grammar.old.rules) place }
    requires index { IsIndexOf grammar.old index.old }
    requires room { room_along grammar.old.rules (W.levels way grammar.old.rules) ≤ grammar.old.spare_nodes }
    requires links { room_along grammar.old.rules (W.levels way grammar.old.rules) ≤ index.old.spare_links }
    requires cells { grammar.old.limit ≤ length index.old.cells }
    ensures isolated { (place : ℕ) → LeadToPlace grammar.old.rules (W.levels way grammar.old.rules) place → IsPlaceIsolated grammar.new.rules place result }
    ensures others { DifferInStart grammar.old.rules grammar.new.rules }
    ensures values { (r : ℕ) → value_at (rules_of grammar.new.rules) r ≡ value_at (rules_of grammar.old.rules) r }
    ensures most { size (rules_of grammar.new.rules) + real_nodes (start_body (rules_of grammar.old.rules)) ≤ 2 * size (rules_of grammar.old.rules) }
    ensures index { IsIndexOf grammar.new index.new }
    ensures spare_nodes { grammar.old.spare_nodes ≤ grammar.new.spare_nodes + room_along grammar.old.rules (W.levels way grammar.old.rules) }
    ensures limit { grammar.new.limit ≡ grammar.old.limit }
    ensures links { index.old.spare_links ≤ index.new.spare_links + room_along grammar.old.rules (W.levels way grammar.old.rules) }
    ensures cells { length index.old.cells ≤ length index.new.cells }
    ensures before { KeepsBefore (first_keys (W.levels way grammar.old.rules)) grammar.old.rules grammar.new.rules }
{
    // The call tells what is true of every grammar.
    let _limit = grammar.limit();
    isolate_linked(grammar, index, way, steps)
}
