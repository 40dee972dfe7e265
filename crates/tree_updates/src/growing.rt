// Nodes and texts that come into a document at one place of its code.
ghost use Rattle.std.specs.Prelude.{◌≡◌, ◌<◌, ◌≤◌, ◌+◌, ◌*◌, ◌^◌, IfOk, OnErr, OnOk, length};
ghost use Rattle.plain_tree.specs.Tree.{Tree, node_count};
ghost use Rattle.slt_grammar.specs.Bodies.{real_nodes};
ghost use Rattle.slt_grammar.specs.Grammars.{size};
ghost use Rattle.slt_grammar.specs.Keyed.{rules_of};
ghost use Rattle.slt_grammar.specs.Ranks.{greatest_rank};
ghost use Rattle.start_fronts.specs.Moved.{MovesBefore};
ghost use Rattle.segment_counts.specs.Weights.{all_weight};
ghost use Rattle.tree_updates.specs.CodePlaces.{IsPlaceSpot, room_to_place};
ghost use Rattle.tree_updates.specs.Extents.{IsUnsweptFor};
ghost use Rattle.tree_updates.specs.Fronts.{first_keys};
ghost use Rattle.tree_updates.specs.Growths.{GetsText, GrowsInto};
ghost use Rattle.tree_updates.specs.Stores.{IsStoreFor};

use crate::code_places::wrap_place;
use crate::deleting_between::JoinedText;
use crate::place_spots::PlaceSpot;
use crate::room::reserve_room;
use crate::store::Store;
use crate::sweeping::sweep;
use path_isolation::nodes_along;
use plain_tree::Texts;
use read_steps::Steps;
use slt_grammar::Body;
use std::alloc::AllocError;
use std::sync::ledger::Ledger;

// A document has fewer nodes than this.
pub(crate) const TOO_MANY: u64 = 1 << 63;

// No memory has so many labels.
const MOST_LABELS: usize = 1 << 63;

// Where something comes into a document: a place of the code, and a rank among the texts.
#[derive(Clone, Copy, Drop)]
pub(crate) struct Site {
    pub(crate) place: u64,
    pub(crate) rank: u64,
}

// So many nodes come: a body comes around what stands at the place, and texts come before the one at the rank.
#[derive(Drop)]
pub(crate) struct Growth {
    pub(crate) site: Site,
    pub(crate) nodes: u64,
    pub(crate) body: Body,
    pub(crate) texts: Texts,
}

// Puts what comes into the store's document, whose names are in the table. It is refused for want of memory, which is asked for before the
// first change.
pub(crate) fn grow<L: Ledger>(
    store: &mut Store,
    growth: Growth,
    spot: &PlaceSpot,
    steps: &mut Steps<L>,
) -> Result<(), AllocError>
    requires store { (t : Tree) × (u : Tree) × IsStoreFor store.old t × GrowsInto store.old.names t u growth }
    requires spot { IsPlaceSpot store.old.grammar.rules growth.site.place spot.now }
    ensures grown { OnOk result ((t u : Tree) → IsStoreFor store.old t → GrowsInto store.old.names t u growth → IsStoreFor store.new u) }
    ensures size { OnOk result (size (rules_of store.new.grammar.rules) ≤ 2 * size (rules_of store.old.grammar.rules) + real_nodes growth.body) }
    ensures ranks { OnOk result (greatest_rank (rules_of store.new.grammar.rules) ≤ greatest_rank (rules_of store.old.grammar.rules)) }
    ensures names { store.new.names ≡ store.old.names }
    ensures kept { OnErr result ((t : Tree) → IsStoreFor store.old t → IsStoreFor store.new t) }
    ensures rules { OnErr result (store.new.grammar.rules ≡ store.old.grammar.rules) }
    ensures texts { OnErr result (store.new.texts.texts ≡ store.old.texts.texts) }
    ensures moves { OnOk result (MovesBefore all_weight (first_keys spot.now.levels.items) growth.site.place store.old.grammar.rules store.new.grammar.rules) }
{
    // The call tells what is true of every grammar.
    let _limit = store.grammar.limit();
    reserve_growth(store, &growth, spot, steps)?;
    put_in(store, growth, spot, steps);
    sweep(store);
    Ok(())
}

// The same once a text has got another value.
pub(crate) fn grow_joined<L: Ledger>(
    store: &mut Store,
    joined: JoinedText,
    growth: Growth,
    spot: &PlaceSpot,
    steps: &mut Steps<L>,
) -> Result<(), AllocError>
    requires store { (t : Tree) × (one : Tree) × (u : Tree) × IsStoreFor store.old t × GetsText store.old t joined one × GrowsInto store.old.names one u growth }
    requires spot { IsPlaceSpot store.old.grammar.rules growth.site.place spot.now }
    ensures grown { OnOk result ((t one u : Tree) → IsStoreFor store.old t → GetsText store.old t joined one → GrowsInto store.old.names one u growth → IsStoreFor store.new u) }
    ensures size { OnOk result (size (rules_of store.new.grammar.rules) ≤ 2 * size (rules_of store.old.grammar.rules) + real_nodes growth.body) }
    ensures ranks { OnOk result (greatest_rank (rules_of store.new.grammar.rules) ≤ greatest_rank (rules_of store.old.grammar.rules)) }
    ensures names { store.new.names ≡ store.old.names }
    ensures kept { OnErr result ((t : Tree) → IsStoreFor store.old t → IsStoreFor store.new t) }
    ensures rules { OnErr result (store.new.grammar.rules ≡ store.old.grammar.rules) }
    ensures texts { OnErr result (store.new.texts.texts ≡ store.old.texts.texts) }
    ensures moves { OnOk result (MovesBefore all_weight (first_keys spot.now.levels.items) growth.site.place store.old.grammar.rules store.new.grammar.rules) }
{
    // The call tells what is true of every grammar.
    let _limit = store.grammar.limit();
    reserve_growth(store, &growth, spot, steps)?;
    store.texts.set(joined.rank, joined.value);
    put_in(store, growth, spot, steps);
    sweep(store);
    Ok(())
}

// Makes room for isolating the place where something comes, which has this spot, for what comes, and for one text more. The store stays.
fn reserve_growth<L: Ledger>(
    store: &mut Store,
    growth: &Growth,
    spot: &PlaceSpot,
    steps: &mut Steps<L>,
) -> Result<(), AllocError>
    requires spot { IsPlaceSpot store.old.grammar.rules growth.now.site.place spot.now }
    requires few { length growth.now.texts < 2 ^ 63 }
    ensures nodes { OnOk result (room_to_place store.new.grammar.rules growth.now.site.place + length growth.now.body ≤ store.new.grammar.spare_nodes) }
    ensures links { OnOk result (room_to_place store.new.grammar.rules growth.now.site.place + length growth.now.body ≤ store.new.index.spare_links) }
    ensures cells { OnOk result (store.new.grammar.limit ≤ length store.new.index.cells) }
    ensures room { OnOk result (length growth.now.texts < store.new.texts.room) }
    ensures rules { store.new.grammar.rules ≡ store.old.grammar.rules }
    ensures texts { store.new.texts.texts ≡ store.old.texts.texts }
    ensures names { store.new.names ≡ store.old.names }
    ensures store { (t : Tree) → IsStoreFor store.old t → IsStoreFor store.new t }
{
    // The call tells what is true of every grammar.
    let _limit = store.grammar.limit();
    let labels = growth.body.len();
    if labels >= MOST_LABELS {
        return Err(AllocError);
    }
    let nodes = nodes_along(&store.grammar, spot.way(), steps);
    reserve_room(store, nodes + labels)?;
    store.texts.reserve(growth.texts.len() as u64 + 1)?;
    Ok(())
}

// Puts what comes in at its place, which has this spot. There is room for it and for isolating the place, so it takes no memory. Rules that
// nobody calls any more stay.
fn put_in<L: Ledger>(store: &mut Store, growth: Growth, spot: &PlaceSpot, steps: &mut Steps<L>)
    requires store { (t : Tree) × (u : Tree) × IsUnsweptFor store.old t × GrowsInto store.old.names t u growth }
    requires spot { IsPlaceSpot store.old.grammar.rules growth.site.place spot.now }
    requires nodes { room_to_place store.old.grammar.rules growth.site.place + length growth.body ≤ store.old.grammar.spare_nodes }
    requires links { room_to_place store.old.grammar.rules growth.site.place + length growth.body ≤ store.old.index.spare_links }
    requires cells { store.old.grammar.limit ≤ length store.old.index.cells }
    requires room { length growth.texts ≤ store.old.texts.room }
    ensures store { (t u : Tree) → IsUnsweptFor store.old t → GrowsInto store.old.names t u growth → IsUnsweptFor store.new u }
    ensures names { store.new.names ≡ store.old.names }
    ensures size { size (rules_of store.new.grammar.rules) ≤ 2 * size (rules_of store.old.grammar.rules) + real_nodes growth.body }
    ensures ranks { greatest_rank (rules_of store.new.grammar.rules) ≤ greatest_rank (rules_of store.old.grammar.rules) }
    ensures moves { MovesBefore all_weight (first_keys spot.now.levels.items) growth.site.place store.old.grammar.rules store.new.grammar.rules }
{
    // The call tells what is true of every grammar.
    let _limit = store.grammar.limit();
    let Growth {
        site,
        nodes,
        body,
        texts,
    } = growth;
    let count = texts.len() as u64;
    wrap_place(
        &mut store.grammar,
        &mut store.index,
        spot.way(),
        &body,
        steps,
    );
    store.texts.insert(site.rank, texts).unwrap();
    store.counts.raise_start(nodes, count);
}
