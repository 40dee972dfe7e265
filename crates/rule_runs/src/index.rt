// Places by keys that have numbers: most are found by the number of their key, without a hash.
ghost use Rattle.std.specs.Prelude.{◌≡◌, ◌≤◌, ℕ, true, false, length, Some, None, Contains, IfOk, IfSome, IfNone, OnOk};
ghost use Rattle.rule_runs.specs.Tables.{places_at, Grows, IsFound};

use crate::place::short;
use arrayvec::ArrayVec;
use indexmap::IndexMap;
use std::alloc::{AllocError, Global};
use std::hash::Hash;

// How many places are kept for each number, and so how many keys are compared before one is hashed.
const FEW: usize = 4;

// The places of the first entries of a number.
type Places = ArrayVec<u32, FEW>;

/// A key. Equal keys have one number.
pub trait Numbered: Eq + Hash + Drop {
    ghost number_of: { Self → ℕ };

    /// The number that it is found by. An index keeps a list for each number up to the largest, so numbers are small.
    fn number(&self) -> usize
        ensures { result ≡ number_of self.now };

    /// An equal key. It is refused only for want of memory.
    fn copy(&self) -> Result<Self, AllocError>
        ensures { IfOk result (λ again. Self.eq self.now again ≡ true) };

    ghost one_number: { (a b : Self) → Self.eq a b ≡ true → number_of a ≡ number_of b };
}

/// The places of entries under different keys. The first few under a number are found by it: only keys that come behind them are
/// hashed. A place may be named though memory was refused for its entry, so the key that stands there is always compared.
pub(crate) struct Index<K: Numbered> {
    // For each number the places of its first entries.
    first: Vec<Places>,
    // The places of all others, under copies of their keys.
    others: IndexMap<K, usize>,
}

// Written out, so that whoever drops one calls this, and doesn't drop each list by itself.
impl<K: Numbered> Drop for Index<K> {
    fn drop(self) {
        let Index {
            first: _first,
            others: _others,
        } = self;
    }
}

impl<K: Numbered> Index<K> {
    pub(crate) fn new(alloc: Global) -> Index<K> {
        Index {
            first: Vec::new(alloc),
            others: IndexMap::new(alloc),
        }
    }

    // With room for so many numbers.
    pub(crate) fn with_room(alloc: Global, count: usize) -> Result<Index<K>, AllocError> {
        Ok(Index {
            first: Vec::with_capacity(alloc, count)?,
            others: IndexMap::new(alloc),
        })
    }

    // Places where to look first for the entries of a number, and no more than that.
    pub(crate) fn first_places(&self, number: usize) -> &[u32] {
        places_of(&self.first, number)
    }

    // Looks for a key where it may stand: the first of these places that has something under it, and what that is.
    pub(crate) fn find<T: Drop, F: Fn(usize) -> Option<T>>(
        &self,
        key: &K,
        under: F,
    ) -> Option<(usize, T)>
        requires { F.IsAlwaysCallable under }
        ensures found { IfSome result (λ r. F.post under r.0 (Some r.1)) }
        ensures absent { IfNone result ((place : ℕ) → IsFound K.eq K.number_of FEW self.now.first.items self.now.others.entries place key.now → F.post under place None) }
    {
        let first = places_of(&self.first, key.number());
        for place in first {
            let place = *place as usize;
            if let Some(found) = under(place) {
                return Some((place, found));
            }
        }
        if first.len() < FEW {
            return None;
        }
        let place = *self.others.get(key)?;
        let found = under(place)?;
        Some((place, found))
    }

    // Names a place under a key. Those of other keys are found as before, even where memory is refused.
    pub(crate) fn name(&mut self, key: &K, place: usize) -> Result<(), AllocError>
        ensures found { OnOk result (IsFound K.eq K.number_of FEW self.new.first.items self.new.others.entries place key.now) }
        ensures keeps { (other : ℕ) (k : K) → K.eq key.now k ≡ false → IsFound K.eq K.number_of FEW self.old.first.items self.old.others.entries other k → IsFound K.eq K.number_of FEW self.new.first.items self.new.others.entries other k }
    {
        if keep_first(&mut self.first, key.number(), short(place)?)? {
            return Ok(());
        }
        self.others.insert(key.copy()?, place)?;
        Ok(())
    }
}

// The places that are kept for a number.
fn places_of(first: &Vec<Places>, number: usize) -> &[u32]
    ensures { result.now ≡ places_at first.now.items number }
{
    match first.get(number) {
        Some(places) => places.as_slice(),
        None => &[],
    }
}

// Keeps a place for a number, unless as many as may be are kept for it: answers whether it is kept. Where numbers were fewer, those
// between have no places.
fn keep_first(first: &mut Vec<Places>, number: usize, place: u32) -> Result<bool, AllocError>
    ensures grows { Grows first.old.items first.new.items }
    ensures kept { IfOk result (λ kept. kept ≡ true → Contains (places_at first.new.items number) place) }
    ensures full { IfOk result (λ kept. kept ≡ false → FEW ≤ length (places_at first.new.items number)) }
{
    for _i in first.len()..number {
        first.push(ArrayVec::new())?;
    }
    if number < first.len() {
        return Ok(first[number].try_push(place).is_ok());
    }
    let mut places = ArrayVec::new();
    places.push(place);
    first.push(places)?;
    Ok(true)
}
