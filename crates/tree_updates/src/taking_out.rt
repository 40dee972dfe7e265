// Nodes that go with all below them, where the memory was taken before.
ghost use Rattle.std.specs.Prelude.{◌≡◌, ◌<◌, ◌≤◌, ◌+◌, ◌-◌, ◌*◌, ℕ, List, length, sum_by};
ghost use Rattle.plain_tree.specs.declared.edit.Edit.TheVariants.{Delete};
ghost use Rattle.plain_tree.specs.declared.kind.Kind.{Kind};
ghost use Rattle.plain_tree.specs.Edits.{placed};
ghost use Rattle.plain_tree.specs.Tree.{Tree};
ghost use Rattle.slt_grammar.specs.Bodies.{real_nodes};
ghost use Rattle.slt_grammar.specs.ChangedValues.{start_body};
ghost use Rattle.slt_grammar.specs.Grammars.{size};
ghost use Rattle.slt_grammar.specs.Keyed.{KeyedRule, rules_of};
ghost use Rattle.slt_grammar.specs.Ranks.{greatest_rank};
ghost use Rattle.slt_grammar.specs.Segments.{preorder};
ghost use Rattle.start_fronts.specs.Moved.{MovesBefore};
ghost use Rattle.segment_counts.specs.Counting.{AreCounts};
ghost use Rattle.segment_counts.specs.Weights.{node_weight};
ghost use Rattle.path_isolation.specs.Isolations.{DifferInStart, room_along};
ghost use Rattle.preorder_address.specs.Marks.{AreMarks};
ghost use Rattle.preorder_address.specs.Spots.{IsSpot};
ghost use Rattle.preorder_address.specs.Starting.{started};
ghost use Rattle.preorder_address.specs.Told.{AreTold, told_levels};
ghost use Rattle.tree_updates.specs.Extents.{IsExtentOf, IsUnsweptFor, LeavesDocument};
ghost use Rattle.tree_updates.specs.Fronts.{IsSameBeforeFirst, first_keys};
ghost use Rattle.tree_updates.specs.Ways.{levels_to, room_to};

use crate::isolating::{lift_along, lift_node};
use crate::node_extent::Extent;
use crate::store::Store;
use plain_tree::Names;
use preorder_address::{Marks, PlaceStart, Spot, StartedDescent, begin_node};
use read_steps::Steps;
use segment_counts::Counts;
use slt_grammar::Grammar;
use std::sync::ledger::Ledger;

// Takes the spot's node out, which has this extent, with all below it. Texts that meet by it stay two, and rules that nobody calls any more stay.
// There is room for the nodes of the bodies of the spot's levels behind the first, for as many links and one more, so it takes no memory.
pub(crate) fn take_out<L: Ledger>(
    store: &mut Store,
    number: u64,
    spot: &Spot,
    extent: Extent,
    steps: &mut Steps<L>,
)
    requires store { (t : Tree) × IsUnsweptFor store.old t × IsExtentOf t number extent × LeavesDocument t (Delete number) }
    requires spot { (names : List (Kind × List ℕ)) × IsSpot names store.old.grammar.rules number spot.now }
    requires room { room_along store.old.grammar.rules spot.now.levels.items ≤ store.old.grammar.spare_nodes }
    requires links { room_along store.old.grammar.rules spot.now.levels.items + 1 ≤ store.old.index.spare_links }
    requires cells { store.old.grammar.limit ≤ length store.old.index.cells }
    ensures store { (t : Tree) → IsUnsweptFor store.old t → IsExtentOf t number extent → LeavesDocument t (Delete number) → IsUnsweptFor store.new (placed t (Delete number)) }
    ensures names { store.new.names ≡ store.old.names }
    ensures others { DifferInStart store.old.grammar.rules store.new.grammar.rules }
    ensures most { size (rules_of store.new.grammar.rules) + real_nodes (start_body (rules_of store.old.grammar.rules)) ≤ 2 * size (rules_of store.old.grammar.rules) }
    ensures size { size (rules_of store.new.grammar.rules) ≤ 2 * size (rules_of store.old.grammar.rules) }
    ensures ranks { greatest_rank (rules_of store.new.grammar.rules) ≤ greatest_rank (rules_of store.old.grammar.rules) }
    ensures spare_nodes { store.old.grammar.spare_nodes ≤ store.new.grammar.spare_nodes + room_along store.old.grammar.rules spot.now.levels.items }
    ensures links { store.old.index.spare_links ≤ store.new.index.spare_links + (room_along store.old.grammar.rules spot.now.levels.items + 1) }
    ensures cells { store.new.grammar.limit ≤ length store.new.index.cells }
    ensures front { IsSameBeforeFirst spot.now.levels.items store.old.grammar.rules store.new.grammar.rules }
    ensures moves { MovesBefore node_weight (first_keys spot.now.levels.items) number store.old.grammar.rules store.new.grammar.rules }
{
    // The call tells what is true of every grammar.
    let _limit = store.grammar.limit();
    lift_node(&mut store.grammar, &mut store.index, spot, steps);
    store.texts.remove_range(extent.rank, extent.texts);
    store.counts.lower_start(extent.nodes, extent.texts);
}

// The same of the node with this number, to which the counts tell the way from a mark: a spot from before is none of changed rules. The marks
// before the node's stay.
pub(crate) fn take_out_located<L: Ledger>(
    store: &mut Store,
    marks: &mut Marks,
    number: u64,
    extent: Extent,
    steps: &mut Steps<L>,
)
    requires store { (t : Tree) × IsUnsweptFor store.old t × IsExtentOf t number extent × LeavesDocument t (Delete number) }
    requires room { room_to store.old.grammar.rules number ≤ store.old.grammar.spare_nodes }
    requires links { room_to store.old.grammar.rules number + 1 ≤ store.old.index.spare_links }
    requires cells { store.old.grammar.limit ≤ length store.old.index.cells }
    requires marks { AreMarks store.old.names store.old.grammar.rules marks.old }
    ensures store { (t : Tree) → IsUnsweptFor store.old t → IsExtentOf t number extent → LeavesDocument t (Delete number) → IsUnsweptFor store.new (placed t (Delete number)) }
    ensures names { store.new.names ≡ store.old.names }
    ensures most { size (rules_of store.new.grammar.rules) + real_nodes (start_body (rules_of store.old.grammar.rules)) ≤ 2 * size (rules_of store.old.grammar.rules) }
    ensures ranks { greatest_rank (rules_of store.new.grammar.rules) ≤ greatest_rank (rules_of store.old.grammar.rules) }
    ensures marks { AreMarks store.old.names store.new.grammar.rules marks.new }
{
    // The call tells what is true of every grammar.
    let _limit = store.grammar.limit();
    let way = way_to(
        &store.grammar,
        &store.counts,
        &store.names,
        number,
        marks,
        steps,
    );
    lift_along(&mut store.grammar, &mut store.index, way, steps);
    store.texts.remove_range(extent.rank, extent.texts);
    store.counts.lower_start(extent.nodes, extent.texts);
}

// The way to the node with this number, by the counts from the last mark before it. Of the marks those stay that stand before its first level's
// node.
fn way_to<'a, L: Ledger>(
    grammar: &Grammar,
    counts: &'a Counts,
    names: &Names,
    number: u64,
    marks: &mut Marks,
    steps: &mut Steps<L>,
) -> StartedDescent<'a>
    requires counts { AreCounts names.now (rules_of grammar.now.rules) counts.now }
    requires low { number < sum_by node_weight (preorder (rules_of grammar.now.rules) (length grammar.now.rules - 1)) }
    requires marks { AreMarks names.now grammar.now.rules marks.old }
    ensures ready { AreTold result.rest.descent.by result.rest.counts.now grammar.now.rules result.rest.descent.next }
    ensures levels { started result.first (told_levels result.rest.descent.by result.rest.counts.now grammar.now.rules result.rest.descent.next) ≡ levels_to grammar.now.rules number }
    ensures marks { (H : List KeyedRule) → IsSameBeforeFirst (levels_to grammar.now.rules number) grammar.now.rules H → AreMarks names.now H marks.new }
{
    // The call tells what is true of every grammar.
    let _limit = grammar.limit();
    let PlaceStart { level, first, rest } = begin_node(
        grammar, counts, names, number, marks, steps,
    );
    marks.cut(first);
    rest.behind(level, counts)
}
