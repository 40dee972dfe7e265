// The nodes that were linked last.
ghost use Rattle.std.specs.Prelude.{◌≡◌};

use crate::index::Index;
use slt_grammar::Key;
use std::alloc::{AllocError, Global};

// So many are kept.
const MOST: usize = 1024;

/// The nodes that were linked last, in a ring in which new ones take the places of the oldest. They are a hint, of which no contract
/// speaks: a node may have been unlinked since, or be gone.
#[derive(Drop)]
pub(crate) struct Touched {
    keys: Vec<Key>,
    // Where the next one is put, and how many there are before it.
    next: usize,
    count: usize,
}

impl Touched {
    /// No nodes. Nothing that is done later takes memory.
    pub(crate) fn new(alloc: Global) -> Result<Touched, AllocError> {
        Ok(Touched {
            keys: vec![in alloc; Key::default(); MOST]?,
            next: 0,
            count: 0,
        })
    }

    /// Adds a node, in the place of the oldest where there are enough.
    pub(crate) fn note(&mut self, key: Key) {
        if let Some(place) = self.keys.get_mut(self.next) {
            *place = key;
        }
        self.next = self.next.saturating_add(1) % MOST;
        self.count = self.count.saturating_add(1).min(MOST);
    }

    /// Takes the node that was added last.
    pub(crate) fn take(&mut self) -> Option<Key> {
        self.count = self.count.checked_sub(1)?;
        self.next = self.next.checked_sub(1).unwrap_or(MOST - 1);
        self.keys.get(self.next).copied()
    }

    /// Takes all nodes.
    pub(crate) fn clear(&mut self) {
        self.count = 0;
    }
}

impl Index {
    // Notes a node that is linked.
    pub(crate) fn note_touched(&mut self, key: Key)
        ensures { self.new ≡ self.old }
    {
        self.touched.note(key);
    }

    /// Takes the node that was linked last, of those not taken or forgotten yet, as far as these are kept. It may have been unlinked
    /// since: `is_linked` tells.
    pub fn take_touched(&mut self) -> Option<Key>
        ensures { self.new ≡ self.old }
    {
        self.touched.take()
    }

    /// Forgets which nodes were linked last.
    pub fn forget_touched(&mut self)
        ensures { self.new ≡ self.old }
    {
        self.touched.clear();
    }
}
