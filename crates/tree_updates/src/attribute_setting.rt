// An attribute of an element, of old or new, gets a value.
ghost use Rattle.std.specs.Prelude.{◌≡◌, ◌<◌, ℕ, false, List, [], ◌∷◌, IfErr, IfOk, MatchResult, OnErr, OnOk, take};
ghost use Rattle.plain_tree.specs.declared.edit.Edit.TheVariants.{Attr};
ghost use Rattle.plain_tree.specs.declared.kind.Kind.TheVariants.{Attribute};
ghost use Rattle.plain_tree.specs.Allowed.{IsAllowed};
ghost use Rattle.plain_tree.specs.EditLaws.{IsEditOf};
ghost use Rattle.plain_tree.specs.Lawful.{AreChars, IsName};
ghost use Rattle.plain_tree.specs.Siblings.{first_kids, from_node};
ghost use Rattle.plain_tree.specs.Tree.{Tree, none, more};
ghost use Rattle.fcns_encoding.specs.Interning.{Interns};
ghost use Rattle.preorder_address.specs.Marks.{AreMarks, MarksFirst};
ghost use Rattle.preorder_address.specs.Spots.{IsSpot};
ghost use Rattle.tree_updates.specs.ElementAttributes.{IsAttributePlace};
ghost use Rattle.start_fronts.specs.Moved.{MovesBefore};
ghost use Rattle.segment_counts.specs.Weights.{all_weight};
ghost use Rattle.tree_updates.specs.CodePlaces.{IsPlaceSpot};
ghost use Rattle.tree_updates.specs.Fronts.{first_keys};
ghost use Rattle.tree_updates.specs.NewAttributes.{IsAttributeBody, IsAttributeGrowth, IsAttributeSite};
ghost use Rattle.tree_updates.specs.Stores.{Applies, IsRefusedFor, IsStoreFor};

use crate::growing::{Growth, Site, TOO_MANY, grow};
use crate::kid_attributes::{AttributePlace, find_attribute};
use crate::moving_marks::{move_marks, whole_weights};
use crate::node_spots::spot_at;
use crate::place_spots::{PlaceSpot, find_place};
use crate::spare_node::is_element;
use crate::store::{EditError, Store};
use crate::valuing::put_value;
use plain_tree::{Bytes, Kind, Names, Texts};
use preorder_address::{Marks, Numbering, Spot};
use read_steps::Steps;
use slt_grammar::{Body, Label};
use std::alloc::{AllocError, Global};
use std::sync::ledger::Ledger;

/// The attribute with this name of the element with this number gets the value, which consists of characters of XML. Where the element has
/// none, it comes behind the others; its name is a Name of XML. It reads the way to the element, those to its attributes up to that one, and for
/// a new one the bodies on the way and how often each rule is called. `EditError` says when it is refused; the document and its rules stay then.
/// It is refused for want of memory at any time, and the name may be in the table then.
pub(crate) fn set_attribute<L: Ledger>(
    alloc: Global,
    store: &mut Store,
    marks: &mut Marks,
    number: u64,
    name: &[u8],
    value: &[u8],
    steps: &mut Steps<L>,
) -> Result<(), EditError>
    requires store { (t : Tree) × IsStoreFor store.old t }
    requires name { IsName name.now }
    requires chars { AreChars value.now }
    requires marks { AreMarks store.old.names store.old.grammar.rules marks.old }
    ensures applies { (t : Tree) → IsStoreFor store.old t → Applies t (Attr number name.now value.now) store.old result store.new }
    ensures marks { AreMarks store.old.names store.new.grammar.rules marks.new }
{
    // The call tells what is true of every grammar.
    let _limit = store.grammar.limit();
    let spot = element_spot(alloc, store, marks, number, steps)?;
    let place = find_attribute(alloc, store, marks, number, name, steps)?;
    if place.found {
        let rank = spot.text_rank() + place.before;
        return put_value(alloc, store, number + 1 + place.before, rank, value);
    }
    let site = attribute_site(store, number, &spot, place, name);
    let end = find_place(alloc, store, marks, site.place, steps)?;
    let named = store.names.len();
    let had = whole_weights(&store.counts);
    add_attribute(alloc, store, site, &end, name, value, steps)?;
    move_marks(
        marks,
        store,
        named,
        Numbering::All,
        site.place,
        end.levels(),
        had,
    );
    Ok(())
}

// The spot of the element with this number.
fn element_spot<L: Ledger>(
    alloc: Global,
    store: &Store,
    marks: &mut Marks,
    number: u64,
    steps: &mut Steps<L>,
) -> Result<Spot, EditError>
    requires store { (t : Tree) × IsStoreFor store.now t }
    requires marks { AreMarks store.now.names store.now.grammar.rules marks.old }
    ensures spot { IfOk result (IsSpot store.now.names store.now.grammar.rules number) }
    ensures answer { (t : Tree) (name value : List ℕ) → IsStoreFor store.now t
        → MatchResult result (λ _. IsAllowed t (Attr number name value)) (λ error. IsRefusedFor error t (Attr number name value)) }
    ensures marks { AreMarks store.now.names store.now.grammar.rules marks.new }
    ensures first { IfOk result (λ spot. MarksFirst store.now.names store.now.grammar.rules spot.levels.items spot.first) }
{
    let spot = spot_at(alloc, store, marks, number, steps)?;
    let Some(kind) = spot.kind(&store.names) else {
        unreachable!()
    };
    if !is_element(kind) {
        return Err(EditError::NotAllowed { kind });
    }
    Ok(spot)
}

// Where an attribute of this name comes, which the spot's node doesn't have, behind the others.
fn attribute_site(
    store: &Store,
    number: u64,
    spot: &Spot,
    place: AttributePlace,
    name: &[u8],
) -> Site
    requires store { (t : Tree) × (value : List ℕ) × IsStoreFor store.now t × IsEditOf t (Attr number name.now value)
        × IsAttributePlace name.now (first_kids (from_node number (more t none))) place }
    requires spot { IsSpot store.now.names store.now.grammar.rules number spot.now }
    requires absent { place.found ≡ false }
    ensures { (t : Tree) (value : List ℕ) → IsStoreFor store.now t → IsEditOf t (Attr number name.now value)
        → IsAttributePlace name.now (first_kids (from_node number (more t none))) place → IsAttributeSite t number name.now value result }
{
    Site {
        place: spot.place() + 1 + 2 * place.before,
        rank: spot.text_rank() + place.before,
    }
}

// Puts a new attribute in.
fn add_attribute<L: Ledger>(
    alloc: Global,
    store: &mut Store,
    site: Site,
    spot: &PlaceSpot,
    name: &[u8],
    value: &[u8],
    steps: &mut Steps<L>,
) -> Result<(), EditError>
    requires store { (t : Tree) × (n : ℕ) × IsStoreFor store.old t × IsEditOf t (Attr n name.now value.now) × IsAttributeSite t n name.now value.now site }
    requires spot { IsPlaceSpot store.old.grammar.rules site.place spot.now }
    ensures applies { (t : Tree) (n : ℕ) → IsStoreFor store.old t → IsEditOf t (Attr n name.now value.now) → IsAttributeSite t n name.now value.now site
        → Applies t (Attr n name.now value.now) store.old result store.new }
    ensures moves { OnOk result (MovesBefore all_weight (first_keys spot.now.levels.items) site.place store.old.grammar.rules store.new.grammar.rules) }
    ensures rules { OnErr result (store.new.grammar.rules ≡ store.old.grammar.rules) }
{
    // The call tells what is true of every grammar.
    let _limit = store.grammar.limit();
    if store.counts.total() >= TOO_MANY - 1 {
        return Err(EditError::TooMany);
    }
    let growth = attribute_growth(alloc, &mut store.names, site, name, value)?;
    grow(store, growth, spot, steps)?;
    Ok(())
}

// What comes with a new attribute. Where memory is refused, its name may have come into the table.
fn attribute_growth(
    alloc: Global,
    names: &mut Names,
    site: Site,
    name: &[u8],
    value: &[u8],
) -> Result<Growth, AllocError>
    ensures growth { IfOk result (λ growth. IsAttributeGrowth names.new name.now value.now site growth) }
    ensures grown { OnOk result (Interns names.old ((Attribute, name.now) ∷ []) names.new) }
    ensures refused { OnErr result ((k : ℕ) × Interns names.old (take k ((Attribute, name.now) ∷ [])) names.new) }
{
    let mut texts = Texts::new(alloc);
    texts.push(Bytes::from_slice(alloc, value)?)?;
    let body = attribute_body(alloc, names, name)?;
    Ok(Growth {
        site,
        nodes: 1,
        body,
        texts,
    })
}

// The body of an attribute's node. Where memory is refused, its name may have come into the table.
fn attribute_body(alloc: Global, names: &mut Names, name: &[u8]) -> Result<Body, AllocError>
    ensures body { IfOk result (IsAttributeBody names.new name.now) }
    ensures grown { OnOk result (Interns names.old ((Attribute, name.now) ∷ []) names.new) }
    ensures refused { OnErr result ((k : ℕ) × Interns names.old (take k ((Attribute, name.now) ∷ [])) names.new) }
{
    let symbol = names.intern(alloc, Kind::Attribute, name)?;
    let mut body = Body::new(alloc);
    body.push(Label::Symbol(symbol))?;
    body.push(Label::Bottom)?;
    body.push(Label::Param)?;
    Ok(body)
}
