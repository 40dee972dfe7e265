// Nodes that come before a node.
ghost use Rattle.std.specs.Prelude.{◌≡◌, ◌↔◌, ◌<◌, ◌≤◌, ◌+◌, ◌*◌, ◌^◌, ℕ, List, [], Some, IfOk, IsTrue, OnErr, OnOk, length, true};
ghost use Rattle.plain_tree.specs.Allowed.{IsAllowed};
ghost use Rattle.plain_tree.specs.Edits.{edited, placed};
ghost use Rattle.plain_tree.specs.InTurn.{in_turn, insert_any};
ghost use Rattle.plain_tree.specs.Lawful.{IsFragment};
ghost use Rattle.plain_tree.specs.Tree.{Tree, trees, node_count, node_count_all};
ghost use Rattle.plain_tree.specs.declared.edit.Edit.TheVariants.{Insert};
ghost use Rattle.plain_tree.specs.declared.kind.Kind.{Kind};
ghost use Rattle.slt_grammar.specs.Bodies.{real_nodes};
ghost use Rattle.slt_grammar.specs.Grammars.{size};
ghost use Rattle.slt_grammar.specs.Keyed.{rules_of};
ghost use Rattle.slt_grammar.specs.Ranks.{greatest_rank};
ghost use Rattle.start_fronts.specs.Moved.{MovesBefore};
ghost use Rattle.segment_counts.specs.Weights.{node_weight};
ghost use Rattle.path_isolation.specs.Isolations.{room_along};
ghost use Rattle.preorder_address.specs.Marks.{AreMarks, MarksFirst};
ghost use Rattle.preorder_address.specs.Spots.{IsSpot};
ghost use Rattle.tree_updates.specs.Extents.{IsUnsweptFor};
ghost use Rattle.tree_updates.specs.Fragments.{IsCodeOf, MayComeBefore};
ghost use Rattle.tree_updates.specs.Fronts.{first_keys};
ghost use Rattle.tree_updates.specs.Joinings.{AreApart, MayInsert, MayJoin, back_value, ends, front_value, joined_edits, valued_texts};
ghost use Rattle.tree_updates.specs.Stores.{Applies, IsStoreFor};

use crate::finding_seams::find_seams;
use crate::fragment_code::encode_in;
use crate::fragment_nodes::count_nodes;
use crate::fragment_spots::spot_beside;
use crate::isolating::wrap_node;
use crate::joining::{Joined, Seams, ends, join_ends};
use crate::joining_three::join_three;
use crate::moving_marks::{move_marks, whole_weights};
use crate::room::reserve_at;
use crate::store::{EditError, Store};
use crate::sweeping::sweep;
use fcns_encoding::Coded;
use plain_tree::{Bytes, Nodes};
use preorder_address::{Marks, Numbering, Spot};
use read_steps::Steps;
use slt_grammar::Label;
use std::alloc::{AllocError, Global};
use std::sync::ledger::Ledger;
use text_list::TextList;

// No document has more nodes.
const MOST_NODES: u64 = (1 << 63) - 1;

/// Puts the fragment's nodes before the node with this number, among its siblings. A text that comes to stand beside a text becomes one with
/// it. It is refused where there is no such node, where the node is the document or an attribute, where it stands under the document and the
/// fragment has a text or an element, where the document would have more than 2^63 - 1 nodes, and for want of memory: all of that is asked for
/// before the first change of the grammar, and names may be in the table then.
pub(crate) fn insert<L: Ledger>(
    alloc: Global,
    store: &mut Store,
    marks: &mut Marks,
    number: u64,
    fragment: &Nodes,
    steps: &mut Steps<L>,
) -> Result<(), EditError>
    requires store { (t : Tree) × IsStoreFor store.old t }
    requires fragment { IsFragment (trees fragment.now) }
    requires marks { AreMarks store.old.names store.old.grammar.rules marks.old }
    ensures applies { (t : Tree) → IsStoreFor store.old t → Applies t (Insert number fragment.now) store.old result store.new }
    ensures marks { AreMarks store.old.names store.new.grammar.rules marks.new }
{
    let spot = spot_beside(alloc, store, marks, number, fragment, steps)?;
    insert_beside(alloc, store, marks, number, &spot, fragment, steps)
}

// The same where the fragment may come before the spot's node.
pub(crate) fn insert_beside<L: Ledger>(
    alloc: Global,
    store: &mut Store,
    marks: &mut Marks,
    number: u64,
    spot: &Spot,
    fragment: &Nodes,
    steps: &mut Steps<L>,
) -> Result<(), EditError>
    requires store { (t : Tree) × IsStoreFor store.old t × IsAllowed t (Insert number fragment.now) }
    requires fragment { IsFragment (trees fragment.now) }
    requires spot { IsSpot store.old.names store.old.grammar.rules number spot.now }
    requires marks { AreMarks store.old.names store.old.grammar.rules marks.old }
    requires first { MarksFirst store.old.names store.old.grammar.rules spot.now.levels.items spot.now.first }
    ensures applies { (t : Tree) → IsStoreFor store.old t → IsAllowed t (Insert number fragment.now) → Applies t (Insert number fragment.now) store.old result store.new }
    ensures marks { AreMarks store.old.names store.new.grammar.rules marks.new }
{
    // The call tells what is true of every grammar.
    let _limit = store.grammar.limit();
    let seams = find_seams(alloc, store, marks, number, spot, fragment, steps)?;
    if !fits(alloc, store, fragment, seams)? {
        return Err(EditError::TooMany);
    }
    let rank = spot.text_rank();
    let named = store.names.len();
    let had = whole_weights(&store.counts);
    let coded = encode_in(alloc, store, fragment)?;
    put_fragment(alloc, store, number, spot, rank, seams, coded, steps)?;
    let levels = spot.levels();
    move_marks(marks, store, named, Numbering::Nodes, number, levels, had);
    Ok(())
}

// Whether the document has no more than 2^63 - 1 nodes with those of the fragment, where each seam takes one.
fn fits(alloc: Global, store: &Store, fragment: &Nodes, seams: Seams) -> Result<bool, AllocError>
    requires store { (t : Tree) × IsStoreFor store.now t }
    ensures { IfOk result (λ fits. (t : Tree) → IsStoreFor store.now t
        → (IsTrue fits ↔ node_count t + node_count_all (trees fragment.now) < 2 ^ 63 + (ends seams.front 1 + ends seams.back 1))) }
{
    // The call tells what is true of every grammar.
    let _limit = store.grammar.limit();
    let merged = ends(seams.front, 1) + ends(seams.back, 1);
    let most = MOST_NODES - store.counts.total() + merged as u64;
    let count = count_nodes(alloc, fragment.as_slice())?;
    Ok(count <= most)
}

// Puts a code with its texts before the spot's node, where texts that meet become one. All memory is taken before the first change of the grammar.
fn put_fragment<L: Ledger>(
    alloc: Global,
    store: &mut Store,
    number: u64,
    spot: &Spot,
    rank: u64,
    seams: Seams,
    coded: Coded,
    steps: &mut Steps<L>,
) -> Result<(), AllocError>
    requires comes { (t : Tree) × (F : List Tree) × IsStoreFor store.old t × MayInsert store.old t number rank seams F coded }
    requires spot { (names : List (Kind × List ℕ)) × IsSpot names store.old.grammar.rules number spot.now }
    ensures store { OnOk result ((t : Tree) (F : List Tree) → IsStoreFor store.old t → MayInsert store.old t number rank seams F coded → IsStoreFor store.new (edited t (Insert number F))) }
    ensures kept { OnErr result ((t : Tree) → IsStoreFor store.old t → IsStoreFor store.new t) }
    ensures rules { OnErr result (store.new.grammar.rules ≡ store.old.grammar.rules) }
    ensures texts { OnErr result (store.new.texts.texts ≡ store.old.texts.texts) }
    ensures names { store.new.names ≡ store.old.names }
    ensures size { OnOk result (size (rules_of store.new.grammar.rules) ≤ 2 * size (rules_of store.old.grammar.rules) + real_nodes coded.body) }
    ensures ranks { OnOk result (greatest_rank (rules_of store.new.grammar.rules) ≤ greatest_rank (rules_of store.old.grammar.rules)) }
    ensures moves { OnOk result (MovesBefore node_weight (first_keys spot.now.levels.items) number store.old.grammar.rules store.new.grammar.rules) }
{
    if is_one_between(seams, coded.body.len()) {
        return join_three(alloc, store, number, spot, rank, &coded.texts, steps);
    }
    place_coded(alloc, store, number, spot, rank, seams, coded, steps)
}

// Whether a code of so many labels has one node, which meets texts on both sides.
fn is_one_between(seams: Seams, labels: usize) -> bool
    ensures { IsTrue result ↔ ((seams.front ≡ true) × ((seams.back ≡ true) × (labels ≡ 3))) }
{
    seams.front && seams.back && labels == 3
}

// Puts a code with its texts before the spot's node, where texts that meet become one, and the code is not one text that meets two. All memory is
// taken before the first change of the grammar.
fn place_coded<L: Ledger>(
    alloc: Global,
    store: &mut Store,
    number: u64,
    spot: &Spot,
    rank: u64,
    seams: Seams,
    coded: Coded,
    steps: &mut Steps<L>,
) -> Result<(), AllocError>
    requires comes { (t : Tree) × (F : List Tree) × IsStoreFor store.old t × MayInsert store.old t number rank seams F coded × AreApart (front_value t number F) (back_value t number F) F }
    requires spot { (names : List (Kind × List ℕ)) × IsSpot names store.old.grammar.rules number spot.now }
    ensures store { OnOk result ((t : Tree) (F : List Tree) → IsStoreFor store.old t → MayInsert store.old t number rank seams F coded → AreApart (front_value t number F) (back_value t number F) F
        → IsStoreFor store.new (edited t (Insert number F))) }
    ensures kept { OnErr result ((t : Tree) → IsStoreFor store.old t → IsStoreFor store.new t) }
    ensures rules { OnErr result (store.new.grammar.rules ≡ store.old.grammar.rules) }
    ensures texts { OnErr result (store.new.texts.texts ≡ store.old.texts.texts) }
    ensures names { store.new.names ≡ store.old.names }
    ensures size { OnOk result (size (rules_of store.new.grammar.rules) ≤ 2 * size (rules_of store.old.grammar.rules) + real_nodes coded.body) }
    ensures ranks { OnOk result (greatest_rank (rules_of store.new.grammar.rules) ≤ greatest_rank (rules_of store.old.grammar.rules)) }
    ensures moves { OnOk result (MovesBefore node_weight (first_keys spot.now.levels.items) number store.old.grammar.rules store.new.grammar.rules) }
{
    let joined = join_ends(alloc, &store.texts, rank, seams, coded)?;
    place(store, number, spot, rank, joined, steps)
}

// Gives texts that meet the joined values, and puts the code of the other trees with its texts before the spot's node. All memory is taken first.
fn place<L: Ledger>(
    store: &mut Store,
    number: u64,
    spot: &Spot,
    rank: u64,
    joined: Joined,
    steps: &mut Steps<L>,
) -> Result<(), AllocError>
    requires comes { (t : Tree) × (F : List Tree) × IsStoreFor store.old t × MayJoin store.old t number rank F joined }
    requires spot { (names : List (Kind × List ℕ)) × IsSpot names store.old.grammar.rules number spot.now }
    ensures store { OnOk result ((t : Tree) (F : List Tree) → IsStoreFor store.old t → MayJoin store.old t number rank F joined → IsStoreFor store.new (in_turn t (joined_edits number joined.front joined.back F))) }
    ensures kept { OnErr result ((t : Tree) → IsStoreFor store.old t → IsStoreFor store.new t) }
    ensures rules { OnErr result (store.new.grammar.rules ≡ store.old.grammar.rules) }
    ensures texts { OnErr result (store.new.texts.texts ≡ store.old.texts.texts) }
    ensures names { store.new.names ≡ store.old.names }
    ensures size { OnOk result (size (rules_of store.new.grammar.rules) ≤ 2 * size (rules_of store.old.grammar.rules) + real_nodes joined.rest.body) }
    ensures ranks { OnOk result (greatest_rank (rules_of store.new.grammar.rules) ≤ greatest_rank (rules_of store.old.grammar.rules)) }
    ensures moves { OnOk result (MovesBefore node_weight (first_keys spot.now.levels.items) number store.old.grammar.rules store.new.grammar.rules) }
{
    let labels = count_labels(joined.rest.body.as_slice());
    let texts = (joined.rest.texts.len() as u64).saturating_add(2);
    reserve_at(store, spot, labels, texts, steps)?;
    put_joined(store, number, spot, rank, joined, steps);
    sweep(store);
    Ok(())
}

// How many labels a code has: no list has 2^63.
fn count_labels(labels: &[Label]) -> usize
    ensures value { result ≡ length labels.now }
    ensures few { result < 2 ^ 63 }
{
    labels.len()
}

// Gives texts that meet the joined values, and puts the code of the other trees with its texts before the spot's node. Rules that nobody calls any
// more stay. There is room for the nodes of the bodies of the spot's levels behind the first and of the code's body, for as many links, and for the
// texts and two more, so it takes no memory.
fn put_joined<L: Ledger>(
    store: &mut Store,
    number: u64,
    spot: &Spot,
    rank: u64,
    joined: Joined,
    steps: &mut Steps<L>,
)
    requires comes { (t : Tree) × (F : List Tree) × IsUnsweptFor store.old t × MayJoin store.old t number rank F joined }
    requires spot { (names : List (Kind × List ℕ)) × IsSpot names store.old.grammar.rules number spot.now }
    requires room { room_along store.old.grammar.rules spot.now.levels.items + length joined.rest.body ≤ store.old.grammar.spare_nodes }
    requires links { room_along store.old.grammar.rules spot.now.levels.items + length joined.rest.body ≤ store.old.index.spare_links }
    requires cells { store.old.grammar.limit ≤ length store.old.index.cells }
    requires texts { length joined.rest.texts + 2 ≤ store.old.texts.room }
    ensures store { (t : Tree) (F : List Tree) → IsUnsweptFor store.old t → MayJoin store.old t number rank F joined → IsUnsweptFor store.new (in_turn t (joined_edits number joined.front joined.back F)) }
    ensures names { store.new.names ≡ store.old.names }
    ensures size { size (rules_of store.new.grammar.rules) ≤ 2 * size (rules_of store.old.grammar.rules) + real_nodes joined.rest.body }
    ensures ranks { greatest_rank (rules_of store.new.grammar.rules) ≤ greatest_rank (rules_of store.old.grammar.rules) }
    ensures moves { MovesBefore node_weight (first_keys spot.now.levels.items) number store.old.grammar.rules store.new.grammar.rules }
{
    let Joined { front, back, rest } = joined;
    set_text(&mut store.texts, rank.saturating_sub(1), front);
    set_text(&mut store.texts, rank, back);
    put_rest(store, number, spot, rank, rest, steps);
}

// The text at a place gets this value, if there is one.
fn set_text(texts: &mut TextList, place: u64, value: Option<Bytes>)
    requires place { (w : List ℕ) → value ≡ Some w → place < length texts.old.texts }
    requires room { 0 < texts.old.room }
    ensures texts { texts.new.texts ≡ valued_texts texts.old.texts place value }
    ensures room { texts.old.room ≤ texts.new.room + 1 }
{
    if let Some(text) = value {
        texts.set(place, text);
    }
}

// Puts the code of trees, if there are any, with its texts before the spot's node, as `put_before` does.
fn put_rest<L: Ledger>(
    store: &mut Store,
    number: u64,
    spot: &Spot,
    rank: u64,
    rest: Coded,
    steps: &mut Steps<L>,
)
    requires comes { (t : Tree) × (F : List Tree) × IsUnsweptFor store.old t × IsCodeOf store.old.names F rest.body × ((F ≡ [] → ⊥) → MayComeBefore store.old t number rank F rest) }
    requires spot { (names : List (Kind × List ℕ)) × IsSpot names store.old.grammar.rules number spot.now }
    requires room { room_along store.old.grammar.rules spot.now.levels.items + length rest.body ≤ store.old.grammar.spare_nodes }
    requires links { room_along store.old.grammar.rules spot.now.levels.items + length rest.body ≤ store.old.index.spare_links }
    requires cells { store.old.grammar.limit ≤ length store.old.index.cells }
    requires texts { length rest.texts ≤ store.old.texts.room }
    ensures store { (t : Tree) (F : List Tree) → IsUnsweptFor store.old t → IsCodeOf store.old.names F rest.body → ((F ≡ [] → ⊥) → MayComeBefore store.old t number rank F rest)
        → IsUnsweptFor store.new (in_turn t (insert_any number F)) }
    ensures names { store.new.names ≡ store.old.names }
    ensures size { size (rules_of store.new.grammar.rules) ≤ 2 * size (rules_of store.old.grammar.rules) + real_nodes rest.body }
    ensures ranks { greatest_rank (rules_of store.new.grammar.rules) ≤ greatest_rank (rules_of store.old.grammar.rules) }
    ensures moves { MovesBefore node_weight (first_keys spot.now.levels.items) number store.old.grammar.rules store.new.grammar.rules }
{
    // The call tells what is true of every grammar.
    let _limit = store.grammar.limit();
    if rest.body.len() == 1 {
        return;
    }
    put_before(store, number, spot, rank, rest, steps);
}

// Puts a code with its texts before the spot's node. Texts that meet by it stay two, and rules that nobody calls any more stay. There is room
// for the nodes of the bodies of the spot's levels behind the first and of the code's body, for as many links, and for the texts, so it takes no
// memory.
fn put_before<L: Ledger>(
    store: &mut Store,
    number: u64,
    spot: &Spot,
    rank: u64,
    coded: Coded,
    steps: &mut Steps<L>,
)
    requires comes { (t : Tree) × (F : List Tree) × IsUnsweptFor store.old t × MayComeBefore store.old t number rank F coded }
    requires spot { (names : List (Kind × List ℕ)) × IsSpot names store.old.grammar.rules number spot.now }
    requires room { room_along store.old.grammar.rules spot.now.levels.items + length coded.body ≤ store.old.grammar.spare_nodes }
    requires links { room_along store.old.grammar.rules spot.now.levels.items + length coded.body ≤ store.old.index.spare_links }
    requires cells { store.old.grammar.limit ≤ length store.old.index.cells }
    requires texts { length coded.texts ≤ store.old.texts.room }
    ensures store { (t : Tree) (F : List Tree) → IsUnsweptFor store.old t → MayComeBefore store.old t number rank F coded → IsUnsweptFor store.new (placed t (Insert number F)) }
    ensures names { store.new.names ≡ store.old.names }
    ensures size { size (rules_of store.new.grammar.rules) ≤ 2 * size (rules_of store.old.grammar.rules) + real_nodes coded.body }
    ensures ranks { greatest_rank (rules_of store.new.grammar.rules) ≤ greatest_rank (rules_of store.old.grammar.rules) }
    ensures moves { MovesBefore node_weight (first_keys spot.now.levels.items) number store.old.grammar.rules store.new.grammar.rules }
{
    // The calls tell what is true of every grammar, and how few texts there are.
    let _limit = store.grammar.limit();
    let Coded { body, texts } = coded;
    wrap_node(&mut store.grammar, &mut store.index, spot, &body, steps);
    let before = store.texts.len();
    store.texts.insert(rank, texts).unwrap();
    let after = store.texts.len();
    store
        .counts
        .raise_start((body.len() / 2) as u64, after - before);
}
