// The node of a spot, made a node of the start's body, and changes there.
ghost use Rattle.std.specs.Prelude.{◌≡◌, ◌≤◌, ◌+◌, ◌-◌, ◌*◌, ℕ, List, length};
ghost use Rattle.plain_tree.specs.declared.kind.Kind.{Kind};
ghost use Rattle.plain_tree.specs.Tree.{Tree};
ghost use Rattle.slt_grammar.specs.Bodies.{real_nodes};
ghost use Rattle.slt_grammar.specs.ChangedValues.{start_body};
ghost use Rattle.slt_grammar.specs.Grammars.{size, value_at};
ghost use Rattle.slt_grammar.specs.Keyed.{rules_of};
ghost use Rattle.slt_grammar.specs.Ranks.{greatest_rank};
ghost use Rattle.slt_grammar.specs.RuleValues.{HaveOtherValues};
ghost use Rattle.start_fronts.specs.Before.{KeepsBefore};
ghost use Rattle.start_fronts.specs.Moved.{MovesBefore};
ghost use Rattle.segment_counts.specs.Weights.{node_weight};
ghost use Rattle.digram_index.specs.Linked.{IsIndexOf};
ghost use Rattle.path_isolation.specs.Isolations.{DifferInStart, room_along};
ghost use Rattle.preorder_address.specs.Spots.{IsSpot};
ghost use Rattle.tree_updates.specs.Fragments.{GetsBefore, IsCodeOf};
ghost use Rattle.tree_updates.specs.Fronts.{IsSameBeforeFirst, StandsBehindFirst, first_keys};
ghost use Rattle.tree_updates.specs.Numbered.{GetsSymbol, IsNodeIsolated, LosesNode};
ghost use Rattle.tree_updates.specs.Ways.{LeadToNode};

use digram_index::Index;
use linked_edits::{lift_linked, relabel_linked, wrap_linked};
use path_isolation::isolate_linked;
use preorder_address::Spot;
use read_steps::Steps;
use slt_grammar::{Body, Grammar, Key, Way};
use std::sync::ledger::Ledger;

/// In the value the spot's node gives way to what stands in its second child's place. There is room for the nodes of the bodies of the
/// spot's levels behind the first, for as many links and one more, so it takes no memory. Rules that nobody calls any more stay.
pub fn lift_node<L: Ledger>(
    grammar: &mut Grammar,
    index: &mut Index,
    spot: &Spot,
    steps: &mut Steps<L>,
)
    requires spot { (names : List (Kind × List ℕ)) × (number : ℕ) × IsSpot names grammar.old.rules number spot.now }
    requires index { IsIndexOf grammar.old index.old }
    requires room { room_along grammar.old.rules spot.now.levels.items ≤ grammar.old.spare_nodes }
    requires links { room_along grammar.old.rules spot.now.levels.items + 1 ≤ index.old.spare_links }
    requires cells { grammar.old.limit ≤ length index.old.cells }
    ensures value { (names : List (Kind × List ℕ)) (number : ℕ) → IsSpot names grammar.old.rules number spot.now
        → LosesNode (rules_of grammar.old.rules) (rules_of grammar.new.rules) number }
    ensures values { HaveOtherValues (length (rules_of grammar.old.rules) - 1) (rules_of grammar.old.rules) (rules_of grammar.new.rules) }
    ensures others { DifferInStart grammar.old.rules grammar.new.rules }
    ensures most { size (rules_of grammar.new.rules) + real_nodes (start_body (rules_of grammar.old.rules)) ≤ 2 * size (rules_of grammar.old.rules) }
    ensures size { size (rules_of grammar.new.rules) ≤ 2 * size (rules_of grammar.old.rules) }
    ensures ranks { greatest_rank (rules_of grammar.new.rules) ≤ greatest_rank (rules_of grammar.old.rules) }
    ensures index { IsIndexOf grammar.new index.new }
    ensures spare_nodes { grammar.old.spare_nodes ≤ grammar.new.spare_nodes + room_along grammar.old.rules spot.now.levels.items }
    ensures spare_rules { grammar.new.spare_rules ≡ grammar.old.spare_rules }
    ensures limit { grammar.new.limit ≡ grammar.old.limit }
    ensures links { index.old.spare_links ≤ index.new.spare_links + (room_along grammar.old.rules spot.now.levels.items + 1) }
    ensures numbers { index.new.spare_rules ≡ index.old.spare_rules }
    ensures cells { length index.old.cells ≤ length index.new.cells }
    ensures steps { steps.new ≤ steps.old }
    ensures front { IsSameBeforeFirst spot.now.levels.items grammar.old.rules grammar.new.rules }
    ensures moves { (names : List (Kind × List ℕ)) (number : ℕ) → IsSpot names grammar.old.rules number spot.now
        → MovesBefore node_weight (first_keys spot.now.levels.items) number grammar.old.rules grammar.new.rules }
{
    lift_along(grammar, index, spot.way(), steps);
}

// The same of the node to which a way leads.
pub(crate) fn lift_along<W: Way, L: Ledger>(
    grammar: &mut Grammar,
    index: &mut Index,
    way: W,
    steps: &mut Steps<L>,
)
    requires ready { W.ready way grammar.old.rules }
    requires leads { (number : ℕ) × LeadToNode grammar.old.rules (W.levels way grammar.old.rules) number }
    requires index { IsIndexOf grammar.old index.old }
    requires room { room_along grammar.old.rules (W.levels way grammar.old.rules) ≤ grammar.old.spare_nodes }
    requires links { room_along grammar.old.rules (W.levels way grammar.old.rules) + 1 ≤ index.old.spare_links }
    requires cells { grammar.old.limit ≤ length index.old.cells }
    ensures value { (number : ℕ) → LeadToNode grammar.old.rules (W.levels way grammar.old.rules) number
        → LosesNode (rules_of grammar.old.rules) (rules_of grammar.new.rules) number }
    ensures values { HaveOtherValues (length (rules_of grammar.old.rules) - 1) (rules_of grammar.old.rules) (rules_of grammar.new.rules) }
    ensures others { DifferInStart grammar.old.rules grammar.new.rules }
    ensures most { size (rules_of grammar.new.rules) + real_nodes (start_body (rules_of grammar.old.rules)) ≤ 2 * size (rules_of grammar.old.rules) }
    ensures ranks { greatest_rank (rules_of grammar.new.rules) ≤ greatest_rank (rules_of grammar.old.rules) }
    ensures index { IsIndexOf grammar.new index.new }
    ensures spare_nodes { grammar.old.spare_nodes ≤ grammar.new.spare_nodes + room_along grammar.old.rules (W.levels way grammar.old.rules) }
    ensures spare_rules { grammar.new.spare_rules ≡ grammar.old.spare_rules }
    ensures limit { grammar.new.limit ≡ grammar.old.limit }
    ensures links { index.old.spare_links ≤ index.new.spare_links + (room_along grammar.old.rules (W.levels way grammar.old.rules) + 1) }
    ensures numbers { index.new.spare_rules ≡ index.old.spare_rules }
    ensures cells { length index.old.cells ≤ length index.new.cells }
    ensures steps { steps.new ≤ steps.old + W.most way grammar.old.rules }
    ensures front { IsSameBeforeFirst (W.levels way grammar.old.rules) grammar.old.rules grammar.new.rules }
    ensures moves { (number : ℕ) → LeadToNode grammar.old.rules (W.levels way grammar.old.rules) number
        → MovesBefore node_weight (first_keys (W.levels way grammar.old.rules)) number grammar.old.rules grammar.new.rules }
{
    let at = isolate_along(grammar, index, way, steps);
    // The calls tell what is true of every grammar.
    let _limit = grammar.limit();
    lift_linked(grammar, index, at);
    let _after = grammar.limit();
}

/// In the value the spot's node gets another symbol. There is room for the nodes of the bodies of the spot's levels behind the first, for
/// as many links and three more, so it takes no memory. Rules that nobody calls any more stay.
pub fn relabel_node<L: Ledger>(
    grammar: &mut Grammar,
    index: &mut Index,
    spot: &Spot,
    symbol: usize,
    steps: &mut Steps<L>,
)
    requires spot { (names : List (Kind × List ℕ)) × (number : ℕ) × IsSpot names grammar.old.rules number spot.now }
    requires index { IsIndexOf grammar.old index.old }
    requires room { room_along grammar.old.rules spot.now.levels.items ≤ grammar.old.spare_nodes }
    requires links { room_along grammar.old.rules spot.now.levels.items + 3 ≤ index.old.spare_links }
    requires cells { grammar.old.limit ≤ length index.old.cells }
    ensures value { (names : List (Kind × List ℕ)) (number : ℕ) → IsSpot names grammar.old.rules number spot.now
        → GetsSymbol (rules_of grammar.old.rules) (rules_of grammar.new.rules) number symbol }
    ensures values { HaveOtherValues (length (rules_of grammar.old.rules) - 1) (rules_of grammar.old.rules) (rules_of grammar.new.rules) }
    ensures size { size (rules_of grammar.new.rules) ≤ 2 * size (rules_of grammar.old.rules) }
    ensures ranks { greatest_rank (rules_of grammar.new.rules) ≤ greatest_rank (rules_of grammar.old.rules) }
    ensures index { IsIndexOf grammar.new index.new }
    ensures spare_nodes { grammar.old.spare_nodes ≤ grammar.new.spare_nodes + room_along grammar.old.rules spot.now.levels.items }
    ensures spare_rules { grammar.new.spare_rules ≡ grammar.old.spare_rules }
    ensures limit { grammar.new.limit ≡ grammar.old.limit }
    ensures links { index.old.spare_links ≤ index.new.spare_links + (room_along grammar.old.rules spot.now.levels.items + 3) }
    ensures numbers { index.new.spare_rules ≡ index.old.spare_rules }
    ensures cells { length index.old.cells ≤ length index.new.cells }
    ensures steps { steps.new ≤ steps.old }
    ensures front { IsSameBeforeFirst spot.now.levels.items grammar.old.rules grammar.new.rules }
    ensures moves { (names : List (Kind × List ℕ)) (number : ℕ) → IsSpot names grammar.old.rules number spot.now
        → MovesBefore node_weight (first_keys spot.now.levels.items) number grammar.old.rules grammar.new.rules }
{
    let at = isolate_node(grammar, index, spot, steps);
    // The calls tell what is true of every grammar.
    let _limit = grammar.limit();
    relabel_linked(grammar, index, at, symbol);
    let _after = grammar.limit();
}

/// In the value the spot's node stands in the hole of a code, which comes in its place. There is room for the nodes of the bodies of the
/// spot's levels behind the first and of the code's body, and for as many links, so it takes no memory. Rules that nobody calls any more stay.
pub fn wrap_node<L: Ledger>(
    grammar: &mut Grammar,
    index: &mut Index,
    spot: &Spot,
    body: &Body,
    steps: &mut Steps<L>,
)
    requires spot { (names : List (Kind × List ℕ)) × (number : ℕ) × IsSpot names grammar.old.rules number spot.now }
    requires body { (names : List (Kind × List ℕ)) × (F : List Tree) × IsCodeOf names F body.now }
    requires index { IsIndexOf grammar.old index.old }
    requires room { room_along grammar.old.rules spot.now.levels.items + length body.now ≤ grammar.old.spare_nodes }
    requires links { room_along grammar.old.rules spot.now.levels.items + length body.now ≤ index.old.spare_links }
    requires cells { grammar.old.limit ≤ length index.old.cells }
    ensures value { (names others : List (Kind × List ℕ)) (number : ℕ) (F : List Tree) → IsSpot names grammar.old.rules number spot.now
        → (C : IsCodeOf others F body.now) → GetsBefore (rules_of grammar.old.rules) (rules_of grammar.new.rules) number C.front }
    ensures values { HaveOtherValues (length (rules_of grammar.old.rules) - 1) (rules_of grammar.old.rules) (rules_of grammar.new.rules) }
    ensures size { size (rules_of grammar.new.rules) ≤ 2 * size (rules_of grammar.old.rules) + real_nodes body.now }
    ensures ranks { greatest_rank (rules_of grammar.new.rules) ≤ greatest_rank (rules_of grammar.old.rules) }
    ensures index { IsIndexOf grammar.new index.new }
    ensures spare_rules { grammar.new.spare_rules ≡ grammar.old.spare_rules }
    ensures limit { grammar.new.limit ≡ grammar.old.limit }
    ensures numbers { index.new.spare_rules ≡ index.old.spare_rules }
    ensures cells { length index.old.cells ≤ length index.new.cells }
    ensures steps { steps.new ≤ steps.old }
    ensures front { IsSameBeforeFirst spot.now.levels.items grammar.old.rules grammar.new.rules }
    ensures moves { (names : List (Kind × List ℕ)) (number : ℕ) → IsSpot names grammar.old.rules number spot.now
        → MovesBefore node_weight (first_keys spot.now.levels.items) number grammar.old.rules grammar.new.rules }
{
    let at = isolate_node(grammar, index, spot, steps);
    // The calls tell what is true of every grammar.
    let _limit = grammar.limit();
    wrap_linked(grammar, index, at, body);
    let _after = grammar.limit();
}

// Makes the spot's node a node of the start's body, and answers it. It takes no memory.
pub(crate) fn isolate_node<L: Ledger>(
    grammar: &mut Grammar,
    index: &mut Index,
    spot: &Spot,
    steps: &mut Steps<L>,
) -> Key
    requires spot { (names : List (Kind × List ℕ)) × (number : ℕ) × IsSpot names grammar.old.rules number spot.now }
    requires index { IsIndexOf grammar.old index.old }
    requires room { room_along grammar.old.rules spot.now.levels.items ≤ grammar.old.spare_nodes }
    requires links { room_along grammar.old.rules spot.now.levels.items ≤ index.old.spare_links }
    requires cells { grammar.old.limit ≤ length index.old.cells }
    ensures node { (names : List (Kind × List ℕ)) (number : ℕ) → IsSpot names grammar.old.rules number spot.now → IsNodeIsolated grammar.new.rules number result }
    ensures others { DifferInStart grammar.old.rules grammar.new.rules }
    ensures values { (r : ℕ) → value_at (rules_of grammar.new.rules) r ≡ value_at (rules_of grammar.old.rules) r }
    ensures most { size (rules_of grammar.new.rules) + real_nodes (start_body (rules_of grammar.old.rules)) ≤ 2 * size (rules_of grammar.old.rules) }
    ensures index { IsIndexOf grammar.new index.new }
    ensures spare_nodes { grammar.old.spare_nodes ≤ grammar.new.spare_nodes + room_along grammar.old.rules spot.now.levels.items }
    ensures spare_rules { grammar.new.spare_rules ≡ grammar.old.spare_rules }
    ensures limit { grammar.new.limit ≡ grammar.old.limit }
    ensures links { index.old.spare_links ≤ index.new.spare_links + room_along grammar.old.rules spot.now.levels.items }
    ensures numbers { index.new.spare_rules ≡ index.old.spare_rules }
    ensures cells { length index.old.cells ≤ length index.new.cells }
    ensures steps { steps.new ≤ steps.old }
    ensures front { StandsBehindFirst spot.now.levels.items grammar.old.rules grammar.new.rules result }
    ensures before { KeepsBefore (first_keys spot.now.levels.items) grammar.old.rules grammar.new.rules }
{
    isolate_along(grammar, index, spot.way(), steps)
}

// The same of the node to which a way leads.
fn isolate_along<W: Way, L: Ledger>(
    grammar: &mut Grammar,
    index: &mut Index,
    way: W,
    steps: &mut Steps<L>,
) -> Key
    requires ready { W.ready way grammar.old.rules }
    requires leads { (number : ℕ) × LeadToNode grammar.old.rules (W.levels way grammar.old.rules) number }
    requires index { IsIndexOf grammar.old index.old }
    requires room { room_along grammar.old.rules (W.levels way grammar.old.rules) ≤ grammar.old.spare_nodes }
    requires links { room_along grammar.old.rules (W.levels way grammar.old.rules) ≤ index.old.spare_links }
    requires cells { grammar.old.limit ≤ length index.old.cells }
    ensures node { (number : ℕ) → LeadToNode grammar.old.rules (W.levels way grammar.old.rules) number → IsNodeIsolated grammar.new.rules number result }
    ensures others { DifferInStart grammar.old.rules grammar.new.rules }
    ensures values { (r : ℕ) → value_at (rules_of grammar.new.rules) r ≡ value_at (rules_of grammar.old.rules) r }
    ensures most { size (rules_of grammar.new.rules) + real_nodes (start_body (rules_of grammar.old.rules)) ≤ 2 * size (rules_of grammar.old.rules) }
    ensures index { IsIndexOf grammar.new index.new }
    ensures spare_nodes { grammar.old.spare_nodes ≤ grammar.new.spare_nodes + room_along grammar.old.rules (W.levels way grammar.old.rules) }
    ensures spare_rules { grammar.new.spare_rules ≡ grammar.old.spare_rules }
    ensures limit { grammar.new.limit ≡ grammar.old.limit }
    ensures links { index.old.spare_links ≤ index.new.spare_links + room_along grammar.old.rules (W.levels way grammar.old.rules) }
    ensures numbers { index.new.spare_rules ≡ index.old.spare_rules }
    ensures cells { length index.old.cells ≤ length index.new.cells }
    ensures steps { steps.new ≤ steps.old + W.most way grammar.old.rules }
    ensures front { StandsBehindFirst (W.levels way grammar.old.rules) grammar.old.rules grammar.new.rules result }
    ensures before { KeepsBefore (first_keys (W.levels way grammar.old.rules)) grammar.old.rules grammar.new.rules }
{
    // The call tells what is true of every grammar.
    let _limit = grammar.limit();
    isolate_linked(grammar, index, way, steps)
}
