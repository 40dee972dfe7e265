// The children of a node.
ghost use Rattle.std.specs.Prelude.{◌≡◌, ◌<◌, ◌≤◌, ◌+◌, ◌++◌, ◌∷◌, [], suc, length, take, drop, slice_get};

use crate::key::Key;
use arrayvec::ArrayVec;
use std::marker::Model;

/// The children of a node in order, at most eight. It is seen as the list of their keys.
#[derive(Drop)]
pub struct Kids {
    keys: ArrayVec<Key, 8>,
}

impl Model for Kids {
    ghost use Rattle.std.specs.Prelude.{List};
    ghost use Rattle.rule_arena.specs.NodeKey.{NodeKey};

    ghost Value = { List NodeKey };

    ghost view = { λ k. k.keys.items };
}

impl Kids {
    /// No children.
    pub fn new() -> Kids
        ensures { result ≡ [] }
    {
        Kids {
            keys: ArrayVec::new(),
        }
    }

    /// One more child at the end; there are less than eight.
    pub fn push(&mut self, key: Key)
        requires { length self.old < 8 }
        ensures { self.new ≡ self.old ++ key ∷ [] }
    {
        self.keys.push(key);
    }

    // The same list without the key at a place.
    pub(crate) fn without(&self, at: usize) -> Kids
        requires { at < length self.now }
        ensures { result ≡ take at self.now ++ drop (suc at) self.now }
    {
        let keys = self.keys.as_slice();
        let mut rest = ArrayVec::new();
        rest.try_extend_from_slice(&keys[..at]).unwrap();
        rest.try_extend_from_slice(&keys[at + 1..]).unwrap();
        Kids { keys: rest }
    }

    // The same list with others in the place of one, at most eight in all.
    pub(crate) fn with_others(&self, at: usize, others: &Kids) -> Kids
        requires within { at < length self.now }
        requires few { length self.now + length others.now ≤ 9 }
        ensures { result ≡ take at self.now ++ (others.now ++ drop (suc at) self.now) }
    {
        let keys = self.keys.as_slice();
        let mut kids = ArrayVec::new();
        kids.try_extend_from_slice(&keys[..at]).unwrap();
        kids.try_extend_from_slice(others.keys.as_slice()).unwrap();
        kids.try_extend_from_slice(&keys[at + 1..]).unwrap();
        Kids { keys: kids }
    }

    /// The keys one after another.
    pub fn as_slice(&self) -> &[Key]
        ensures value { result.now ≡ self.now }
        ensures few { length result.now ≤ 8 }
    {
        self.keys.as_slice()
    }

    /// How many children there are.
    pub fn len(&self) -> usize
        ensures value { result ≡ length self.now }
        ensures few { result ≤ 8 }
    {
        self.keys.as_slice().len()
    }

    /// The child at a place from 0, and none past the end.
    pub fn get(&self, at: usize) -> Option<Key>
        ensures { result ≡ slice_get self.now at }
    {
        self.keys.as_slice().get(at).copied()
    }
}
