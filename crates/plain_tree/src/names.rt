// The table of the names of a document.
ghost use Rattle.std.specs.Prelude.{◌≡◌, ◌≢◌, ◌++◌, [], ◌∷◌, ℕ, OnOk, OnErr, IfOk, IfSome, IfNone, Some, None, slice_get, slice_set, slice_index_or, length, ◌<◌, ◌^◌};
ghost use Rattle.plain_tree.specs.NamePlaces.{place_of};
ghost use Rattle.plain_tree.specs.NameTable.{AreDistinct, seen_pair};
ghost use Rattle.plain_tree.specs.Tree.{kind_code};

use crate::{Bytes, Kind};
use indexmap::IndexMap;
use std::alloc::{AllocError, Global};
use std::marker::Model;

/// A table of names: distinct pairs of a kind and a name, each at its place in the order in which they came.
pub struct Names {
    pairs: Vec<Pair>,
    // for each kind the places of its names
    places: [PlaceMap; 6],
}

impl Drop for Names {
    fn drop(self) {
        let Names {
            pairs: _pairs,
            places: _places,
        } = self;
    }
}

#[derive(Drop)]
struct Pair {
    kind: Kind,
    name: Bytes,
}

impl Model for Names {
    ghost use Rattle.std.specs.Prelude.{List, ℕ};
    ghost use Rattle.plain_tree.specs.declared.kind.Kind.{Kind};

    ghost Value = { List (Kind × List ℕ) };

    ghost use Rattle.plain_tree.specs.NameTable.{pairs_of, Agrees, map_at};

    ghost view = { λ a. pairs_of a.pairs.items };

    ghost invariant = { λ a. Agrees (pairs_of a.pairs.items) (map_at a.places) };
}

impl Names {
    /// An empty table. It takes no memory.
    pub fn new(alloc: Global) -> Names
        ensures { result ≡ [] }
    {
        Names {
            pairs: Vec::new(alloc),
            places: [
                PlaceMap::new(alloc),
                PlaceMap::new(alloc),
                PlaceMap::new(alloc),
                PlaceMap::new(alloc),
                PlaceMap::new(alloc),
                PlaceMap::new(alloc),
            ],
        }
    }

    /// The place of a pair, which is added at the end if it is new.
    pub fn intern(&mut self, alloc: Global, kind: Kind, name: &[u8]) -> Result<usize, AllocError>
        ensures place { IfOk result (λ i. slice_get self.new i ≡ Some (kind, name.now)) }
        ensures kept { OnOk result ((i : ℕ) → slice_get self.old i ≡ Some (kind, name.now) → self.new ≡ self.old) }
        ensures added { OnOk result (((i : ℕ) → slice_get self.old i ≢ Some (kind, name.now)) → self.new ≡ self.old ++ (kind, name.now) ∷ []) }
        ensures err { OnErr result (self.new ≡ self.old) }
    {
        if let Some(place) = self.find(kind, name) {
            return Ok(place);
        }
        let key = name.to_vec(alloc)?;
        let name = Bytes::from_slice(alloc, name)?;
        self.pairs.reserve(1)?;
        let place = self.pairs.len();
        add_at(&mut self.places, kind.number() as usize, key, place)?;
        self.pairs.push(Pair { kind, name })?;
        Ok(place)
    }

    /// The place of a pair, and None exactly where it isn't in the table.
    pub fn find(&self, kind: Kind, name: &[u8]) -> Option<usize>
        ensures some { IfSome result (λ i. slice_get self.now i ≡ Some (kind, name.now)) }
        ensures none { IfNone result ((i : ℕ) → slice_get self.now i ≢ Some (kind, name.now)) }
        ensures distinct { AreDistinct self.now }
    {
        find_at(&self.places, kind.number() as usize, name)
    }

    /// The pair at a place, and None exactly where the place isn't below the length.
    pub fn at(&self, place: usize) -> Option<(Kind, &[u8])>
        ensures { seen_pair result ≡ slice_get self.now place }
    {
        match self.pairs.get(place) {
            Some(pair) => Some((pair.kind, pair.name.as_slice())),
            None => None,
        }
    }

    pub fn len(&self) -> usize
        ensures value { result ≡ length self.now }
        ensures few { result < 2 ^ 63 }
    {
        self.pairs.len()
    }
}

// The places of the names of one kind.
#[derive(Drop)]
struct PlaceMap {
    map: IndexMap<Vec<u8>, usize>,
}

impl Model for PlaceMap {
    ghost use Rattle.std.specs.Prelude.{List, ℕ};
    ghost use Rattle.plain_tree.specs.NamePlaces.{shown};

    ghost Value = { List (List ℕ × ℕ) };

    ghost view = { λ a. shown a.map.entries };
}

impl PlaceMap {
    fn new(alloc: Global) -> PlaceMap
        ensures { result ≡ [] }
    {
        PlaceMap {
            map: IndexMap::new(alloc),
        }
    }

    fn find(&self, name: &[u8]) -> Option<usize>
        ensures { result ≡ place_of name.now self.now }
    {
        self.map.get(name).copied()
    }

    fn add(&mut self, name: Vec<u8>, place: usize) -> Result<(), AllocError>
        requires { place_of name.items self.old ≡ None }
        ensures ok { OnOk result (self.new ≡ self.old ++ (name.items, place) ∷ []) }
        ensures err { OnErr result (self.new ≡ self.old) }
    {
        self.map.insert(name, place)?;
        Ok(())
    }
}

fn find_at(maps: &[PlaceMap], at: usize, name: &[u8]) -> Option<usize>
    requires { at < length maps.now }
    ensures { result ≡ place_of name.now (slice_index_or maps.now at []) }
{
    maps[at].find(name)
}

fn add_at(maps: &mut [PlaceMap], at: usize, name: Vec<u8>, place: usize) -> Result<(), AllocError>
    requires in_maps { at < length maps.old }
    requires absent { place_of name.items (slice_index_or maps.old at []) ≡ None }
    ensures ok { OnOk result (maps.new ≡ slice_set maps.old at (slice_index_or maps.old at [] ++ (name.items, place) ∷ [])) }
    ensures err { OnErr result (maps.new ≡ maps.old) }
{
    maps[at].add(name, place)
}
