// Entries under keys, which an index finds.
ghost use Rattle.std.specs.Prelude.{◌≡◌, ◌++◌, true, false, [], ◌∷◌, slice_get, Some, None, IfOk, IfSome, IfNone, OnErr, OnOk};
ghost use Rattle.std.specs.Map.{lookup};

use crate::index::{Index, Numbered};
use std::alloc::{AllocError, Global};
use std::marker::Model;

/// Entries under different keys, in the order in which they were noted.
pub struct Table<K: Numbered, X: Drop> {
    entries: Vec<(K, X)>,
    index: Index<K>,
}

impl<K: Numbered, X: Drop> Drop for Table<K, X> {
    fn drop(self) {
        let Table {
            entries: _entries,
            index: _index,
        } = self;
    }
}

impl<K: Numbered, X: Drop> Model for Table<K, X> {
    ghost use Rattle.std.specs.Prelude.{List};
    ghost use Rattle.rule_runs.specs.declared.index.TheConstants.{FEW};
    ghost use Rattle.rule_runs.specs.Tables.{IsIndexed, StandsIn};

    ghost Value = { List (K × X) };

    ghost view = { λ t. t.entries.items };

    ghost invariant = { λ t. IsIndexed K.eq K.number_of FEW (StandsIn t.entries.items) t.index.first.items t.index.others.entries };
}

impl<K: Numbered, X: Drop> Table<K, X> {
    /// With room for so many entries of as many numbers.
    pub fn with_room(alloc: Global, count: usize) -> Result<Table<K, X>, AllocError>
        ensures { IfOk result (λ table. table ≡ []) }
    {
        Ok(Table {
            entries: Vec::with_capacity(alloc, count)?,
            index: Index::with_room(alloc, count)?,
        })
    }

    /// The place and the value of the entry under a key.
    pub fn find(&self, key: &K) -> Option<(usize, &X)>
        ensures found { IfSome result (λ r. (k : K) × (slice_get self.now r.0 ≡ Some (k, r.1.now)) × (K.eq key.now k ≡ true)) }
        ensures absent { IfNone result (lookup (K.eq key.now) self.now ≡ None) }
    {
        self.index
            .find(key, |place| value_under(&self.entries, place, key))
    }

    /// Notes a value under a key that is not there yet.
    pub fn note(&mut self, key: K, value: X) -> Result<(), AllocError>
        requires { lookup (K.eq key) self.old ≡ None }
        ensures ok { OnOk result (self.new ≡ self.old ++ (key, value) ∷ []) }
        ensures stays { OnErr result (self.new ≡ self.old) }
    {
        self.index.name(&key, self.entries.len())?;
        self.entries.push((key, value))?;
        Ok(())
    }
}

// The value at a place, if it stands there under this key.
fn value_under<'a, K: Numbered, X: Drop>(
    entries: &'a Vec<(K, X)>,
    place: usize,
    key: &K,
) -> Option<&'a X>
    ensures found { IfSome result (λ value. (k : K) × (slice_get entries.now.items place ≡ Some (k, value.now)) × (K.eq key.now k ≡ true)) }
    ensures other { IfNone result ((k : K) (x : X) → slice_get entries.now.items place ≡ Some (k, x) → K.eq key.now k ≡ false) }
{
    let (noted, value) = entries.get(place)?;
    if key == noted { Some(value) } else { None }
}
