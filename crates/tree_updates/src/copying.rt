// A node that comes once more before itself, with all below it.
ghost use Rattle.std.specs.Prelude.{◌≡◌, ◌<◌, ◌≤◌, ◌+◌, ◌-◌, ◌*◌, ℕ, List, IfOk, MatchResult, OnErr, OnOk, Some, length};
ghost use Rattle.plain_tree.specs.Allowed.{IsAllowed};
ghost use Rattle.plain_tree.specs.Edits.{placed};
ghost use Rattle.plain_tree.specs.Tree.{Tree};
ghost use Rattle.plain_tree.specs.declared.edit.Edit.TheVariants.{Copy};
ghost use Rattle.plain_tree.specs.declared.kind.Kind.{Kind};
ghost use Rattle.plain_tree.specs.declared.kind.Kind.TheVariants.{Text};
ghost use Rattle.slt_grammar.specs.Grammars.{size};
ghost use Rattle.slt_grammar.specs.Keyed.{rules_of};
ghost use Rattle.slt_grammar.specs.Names.{Bottom, Call};
ghost use Rattle.slt_grammar.specs.Ranks.{greatest_rank};
ghost use Rattle.path_isolation.specs.Isolations.{room_along};
ghost use Rattle.preorder_address.specs.Marks.{AreMarks, MarksFirst};
ghost use Rattle.preorder_address.specs.Spots.{IsSpot};
ghost use Rattle.preorder_address.specs.TreeNumbers.{kind_at};
ghost use Rattle.tree_updates.specs.Copies.{HasUncountedCopy, IsTwinBody, MayCopy};
ghost use Rattle.tree_updates.specs.Extents.{IsUnsweptFor};
ghost use Rattle.tree_updates.specs.Fronts.{IsSameBeforeFirst, KeepsMarks};
ghost use Rattle.tree_updates.specs.Stores.{Applies, IsRefusedFor, IsStoreFor};

use crate::copying_code::{twin_body, wrap_shared};
use crate::copying_text::copy_text;
use crate::growing::TOO_MANY;
use crate::isolating::wrap_node;
use crate::meeting::is_text;
use crate::node_extent::{Extent, extent_of};
use crate::room::reserve_at;
use crate::spare_node::{is_attribute, spare_spot};
use crate::store::{EditError, Store};
use crate::sweeping::sweep;
use preorder_address::{Marks, Spot};
use read_steps::Steps;
use slt_grammar::{Body, Label};
use std::alloc::{AllocError, Global};
use std::sync::ledger::Ledger;

/// Puts a node equal to the one with this number before it, with all below it. A text becomes one with its copy, and with a text before them. What
/// is below another node becomes a rule that both call, and its texts are the same places once more, without their bytes. It is refused where
/// there is no such node, where the node is the document, the root element or an attribute, where the document would have more than 2^63 - 1
/// nodes, and for want of memory: all of that is asked for before the first change.
pub(crate) fn copy<L: Ledger>(
    alloc: Global,
    store: &mut Store,
    marks: &mut Marks,
    number: u64,
    steps: &mut Steps<L>,
) -> Result<(), EditError>
    requires store { (t : Tree) × IsStoreFor store.old t }
    requires marks { AreMarks store.old.names store.old.grammar.rules marks.old }
    ensures applies { (t : Tree) → IsStoreFor store.old t → Applies t (Copy number) store.old result store.new }
    ensures marks { AreMarks store.old.names store.new.grammar.rules marks.new }
{
    let spot = copied_spot(alloc, store, marks, number, steps)?;
    if is_text(spot.kind(&store.names)) {
        copy_text(alloc, store, marks, number, &spot, steps)
    } else {
        copy_other(alloc, store, marks, number, &spot, steps)
    }
}

// The spot of the node with this number, which may be copied.
fn copied_spot<L: Ledger>(
    alloc: Global,
    store: &Store,
    marks: &mut Marks,
    number: u64,
    steps: &mut Steps<L>,
) -> Result<Spot, EditError>
    requires store { (t : Tree) × IsStoreFor store.now t }
    requires marks { AreMarks store.now.names store.now.grammar.rules marks.old }
    ensures spot { IfOk result (IsSpot store.now.names store.now.grammar.rules number) }
    ensures answer { (t : Tree) → IsStoreFor store.now t → MatchResult result (λ _. IsAllowed t (Copy number)) (λ error. IsRefusedFor error t (Copy number)) }
    ensures marks { AreMarks store.now.names store.now.grammar.rules marks.new }
    ensures first { IfOk result (λ spot. MarksFirst store.now.names store.now.grammar.rules spot.levels.items spot.first) }
{
    let spot = spare_spot(alloc, store, marks, number, steps)?;
    let Some(kind) = spot.kind(&store.names) else {
        unreachable!()
    };
    if is_attribute(kind) {
        return Err(EditError::NotAllowed { kind });
    }
    Ok(spot)
}

// Copies the spot's node, which is no text. All memory is taken first.
fn copy_other<L: Ledger>(
    alloc: Global,
    store: &mut Store,
    marks: &mut Marks,
    number: u64,
    spot: &Spot,
    steps: &mut Steps<L>,
) -> Result<(), EditError>
    requires store { (t : Tree) × IsStoreFor store.old t × IsAllowed t (Copy number) × (kind_at t number ≡ Some Text → ⊥) }
    requires spot { IsSpot store.old.names store.old.grammar.rules number spot.now }
    requires marks { AreMarks store.old.names store.old.grammar.rules marks.old }
    requires first { MarksFirst store.old.names store.old.grammar.rules spot.now.levels.items spot.now.first }
    ensures applies { (t : Tree) → IsStoreFor store.old t → IsAllowed t (Copy number) → (kind_at t number ≡ Some Text → ⊥)
        → Applies t (Copy number) store.old result store.new }
    ensures marks { AreMarks store.old.names store.new.grammar.rules marks.new }
{
    // The call tells what is true of every grammar.
    let _limit = store.grammar.limit();
    let extent = extent_of(alloc, store, marks, number, spot, steps)?;
    if extent.nodes >= TOO_MANY - store.counts.total() {
        return Err(EditError::TooMany);
    }
    marks.cut(spot.first());
    if extent.nodes == 1 {
        Ok(copy_alone(alloc, store, number, spot, extent, steps)?)
    } else {
        Ok(copy_whole(alloc, store, number, spot, extent, steps)?)
    }
}

// Copies the spot's node, below which nothing is. Texts that meet stay two.
fn copy_alone<L: Ledger>(
    alloc: Global,
    store: &mut Store,
    number: u64,
    spot: &Spot,
    extent: Extent,
    steps: &mut Steps<L>,
) -> Result<(), AllocError>
    requires store { (t : Tree) × IsStoreFor store.old t × MayCopy t number extent }
    requires alone { extent.nodes ≡ 1 }
    requires spot { IsSpot store.old.names store.old.grammar.rules number spot.now }
    ensures store { OnOk result ((t : Tree) → IsStoreFor store.old t → MayCopy t number extent → IsStoreFor store.new (placed t (Copy number))) }
    ensures kept { OnErr result ((t : Tree) → IsStoreFor store.old t → IsStoreFor store.new t) }
    ensures rules { OnErr result (store.new.grammar.rules ≡ store.old.grammar.rules) }
    ensures texts { OnErr result (store.new.texts.texts ≡ store.old.texts.texts) }
    ensures names { store.new.names ≡ store.old.names }
    ensures size { OnOk result (size (rules_of store.new.grammar.rules) ≤ 2 * size (rules_of store.old.grammar.rules) + 3) }
    ensures ranks { OnOk result (greatest_rank (rules_of store.new.grammar.rules) ≤ greatest_rank (rules_of store.old.grammar.rules)) }
    ensures marks { KeepsMarks spot.now.levels.items store.old.grammar.rules store.new.grammar.rules }
{
    let body = twin_body(alloc, spot.symbol(), Label::Bottom)?;
    reserve_copy(store, spot, extent.texts, steps)?;
    put_alone(store, number, spot, extent, &body, steps);
    sweep(store);
    Ok(())
}

// Copies the spot's node with what is below it, which becomes a rule that both call. Texts that meet stay two.
fn copy_whole<L: Ledger>(
    alloc: Global,
    store: &mut Store,
    number: u64,
    spot: &Spot,
    extent: Extent,
    steps: &mut Steps<L>,
) -> Result<(), AllocError>
    requires store { (t : Tree) × IsStoreFor store.old t × MayCopy t number extent }
    requires some { 1 < extent.nodes }
    requires spot { IsSpot store.old.names store.old.grammar.rules number spot.now }
    ensures store { OnOk result ((t : Tree) → IsStoreFor store.old t → MayCopy t number extent → IsStoreFor store.new (placed t (Copy number))) }
    ensures kept { OnErr result ((t : Tree) → IsStoreFor store.old t → IsStoreFor store.new t) }
    ensures rules { OnErr result (store.new.grammar.rules ≡ store.old.grammar.rules) }
    ensures texts { OnErr result (store.new.texts.texts ≡ store.old.texts.texts) }
    ensures names { store.new.names ≡ store.old.names }
    ensures size { OnOk result (size (rules_of store.new.grammar.rules) ≤ 2 * size (rules_of store.old.grammar.rules) + 3) }
    ensures ranks { OnOk result (greatest_rank (rules_of store.new.grammar.rules) ≤ greatest_rank (rules_of store.old.grammar.rules)) }
    ensures marks { KeepsMarks spot.now.levels.items store.old.grammar.rules store.new.grammar.rules }
{
    // The call tells what is true of every grammar.
    let _limit = store.grammar.limit();
    let rule = store.grammar.rules() - 1;
    let body = twin_body(alloc, spot.symbol(), Label::Call(rule))?;
    reserve_copy(store, spot, extent.texts, steps)?;
    put_whole(store, number, spot, extent, &body, steps);
    sweep(store);
    Ok(())
}

// Makes room for isolating the spot's node, for four nodes and a rule more, for as many links and one row, and for so many texts. The store stays.
fn reserve_copy<L: Ledger>(
    store: &mut Store,
    spot: &Spot,
    texts: u64,
    steps: &mut Steps<L>,
) -> Result<(), AllocError>
    requires spot { (names : List (Kind × List ℕ)) × (number : ℕ) × IsSpot names store.old.grammar.rules number spot.now }
    ensures nodes { OnOk result (room_along store.new.grammar.rules spot.now.levels.items + 4 ≤ store.new.grammar.spare_nodes) }
    ensures rule { OnOk result (0 < store.new.grammar.spare_rules) }
    ensures links { OnOk result (room_along store.new.grammar.rules spot.now.levels.items + 4 ≤ store.new.index.spare_links) }
    ensures number { OnOk result (0 < store.new.index.spare_rules) }
    ensures cells { OnOk result (store.new.grammar.limit ≤ length store.new.index.cells) }
    ensures row { OnOk result (store.new.counts.rules < length store.new.counts.rows) }
    ensures room { OnOk result (texts ≤ store.new.texts.room) }
    ensures rules { store.new.grammar.rules ≡ store.old.grammar.rules }
    ensures texts { store.new.texts.texts ≡ store.old.texts.texts }
    ensures names { store.new.names ≡ store.old.names }
    ensures store { (t : Tree) → IsStoreFor store.old t → IsStoreFor store.new t }
{
    reserve_at(store, spot, 4, texts, steps)?;
    store.grammar.reserve(0, 1)?;
    store.index.reserve(&store.grammar, 0, 1)?;
    let rows = store.counts.rules().saturating_add(1);
    store.counts.reserve(rows)
}

// Puts the twin of the spot's node before it, where nothing is below it. Rules that nobody calls any more stay. There is room for the nodes of the
// bodies of the spot's levels behind the first and for four more, for as many links, and for the texts, so it takes no memory.
fn put_alone<L: Ledger>(
    store: &mut Store,
    number: u64,
    spot: &Spot,
    extent: Extent,
    body: &Body,
    steps: &mut Steps<L>,
)
    requires store { (t : Tree) × IsUnsweptFor store.old t × MayCopy t number extent }
    requires alone { extent.nodes ≡ 1 }
    requires spot { IsSpot store.old.names store.old.grammar.rules number spot.now }
    requires body { IsTwinBody spot.now.symbol Bottom body.now }
    requires nodes { room_along store.old.grammar.rules spot.now.levels.items + 4 ≤ store.old.grammar.spare_nodes }
    requires links { room_along store.old.grammar.rules spot.now.levels.items + 4 ≤ store.old.index.spare_links }
    requires cells { store.old.grammar.limit ≤ length store.old.index.cells }
    requires room { extent.texts ≤ store.old.texts.room }
    ensures store { (t : Tree) → IsUnsweptFor store.old t → MayCopy t number extent → IsUnsweptFor store.new (placed t (Copy number)) }
    ensures names { store.new.names ≡ store.old.names }
    ensures size { size (rules_of store.new.grammar.rules) ≤ 2 * size (rules_of store.old.grammar.rules) + 3 }
    ensures ranks { greatest_rank (rules_of store.new.grammar.rules) ≤ greatest_rank (rules_of store.old.grammar.rules) }
    ensures front { IsSameBeforeFirst spot.now.levels.items store.old.grammar.rules store.new.grammar.rules }
{
    // The call tells what is true of every grammar.
    let _limit = store.grammar.limit();
    wrap_node(&mut store.grammar, &mut store.index, spot, body, steps);
    count_copy(store, number, extent);
}

// The same where something is below it. There is room for a rule more and its row too.
fn put_whole<L: Ledger>(
    store: &mut Store,
    number: u64,
    spot: &Spot,
    extent: Extent,
    body: &Body,
    steps: &mut Steps<L>,
)
    requires store { (t : Tree) × IsUnsweptFor store.old t × MayCopy t number extent }
    requires some { 1 < extent.nodes }
    requires spot { IsSpot store.old.names store.old.grammar.rules number spot.now }
    requires body { IsTwinBody spot.now.symbol (Call (length store.old.grammar.rules - 1)) body.now }
    requires nodes { room_along store.old.grammar.rules spot.now.levels.items + 4 ≤ store.old.grammar.spare_nodes }
    requires rule { 0 < store.old.grammar.spare_rules }
    requires links { room_along store.old.grammar.rules spot.now.levels.items + 4 ≤ store.old.index.spare_links }
    requires number { 0 < store.old.index.spare_rules }
    requires cells { store.old.grammar.limit ≤ length store.old.index.cells }
    requires row { store.old.counts.rules < length store.old.counts.rows }
    requires room { extent.texts ≤ store.old.texts.room }
    ensures store { (t : Tree) → IsUnsweptFor store.old t → MayCopy t number extent → IsUnsweptFor store.new (placed t (Copy number)) }
    ensures names { store.new.names ≡ store.old.names }
    ensures size { size (rules_of store.new.grammar.rules) ≤ 2 * size (rules_of store.old.grammar.rules) + 3 }
    ensures ranks { greatest_rank (rules_of store.new.grammar.rules) ≤ greatest_rank (rules_of store.old.grammar.rules) }
    ensures front { IsSameBeforeFirst spot.now.levels.items store.old.grammar.rules store.new.grammar.rules }
{
    // The call tells what is true of every grammar.
    let _limit = store.grammar.limit();
    let rule = store.grammar.rules() - 1;
    wrap_shared(&mut store.grammar, &mut store.index, spot, body, steps);
    store
        .counts
        .insert_leaf(rule, extent.nodes - 1, extent.texts);
    count_copy(store, number, extent);
}

// Puts the texts of a node before themselves once more, and counts its copy, which is in the code. There is room for the texts, so it takes no
// memory.
fn count_copy(store: &mut Store, number: u64, extent: Extent)
    requires store { (t : Tree) × HasUncountedCopy store.old t number extent }
    requires room { extent.texts ≤ store.old.texts.room }
    ensures store { (t : Tree) → HasUncountedCopy store.old t number extent → IsUnsweptFor store.new (placed t (Copy number)) }
    ensures names { store.new.names ≡ store.old.names }
    ensures grammar { store.new.grammar ≡ store.old.grammar }
{
    store.texts.duplicate(extent.rank, extent.texts).unwrap();
    store.counts.raise_start(extent.nodes, extent.texts);
}
