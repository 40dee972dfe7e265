// The upper nodes of occurrences, in four bytes each.
ghost use Rattle.std.specs.Prelude.{◌≡◌, ◌≢◌, ◌<◌, ◌≤◌, [], ℕ, length, get_or, OnOk, IsOk};
ghost use Rattle.digram_index.specs.Uppers.{numbers_of};

use crate::room::make_room;
use slt_grammar::Key;
use std::alloc::{AllocError, Global};
use std::marker::Model;

/// For each lower node its upper one. It is seen as the list of the upper nodes' numbers.
#[derive(Drop)]
pub struct Uppers {
    keys: Vec<Key>,
}

impl Model for Uppers {
    ghost use Rattle.std.specs.Prelude.{List, ℕ};
    ghost use Rattle.digram_index.specs.Uppers.{numbers_of};

    ghost Value = { List ℕ };

    ghost view = { λ a. numbers_of a.keys.items };
}

impl Uppers {
    /// No nodes. It takes no memory.
    pub fn new(alloc: Global) -> Uppers
        ensures { result ≡ [] }
    {
        Uppers {
            keys: Vec::new(alloc),
        }
    }

    /// The number of a lower node's upper one, and 0 past the end.
    pub fn number(&self, lower: usize) -> usize
        ensures { result ≡ get_or self.now lower 0 }
    {
        match self.keys.get(lower) {
            Some(key) => key.number(),
            None => 0,
        }
    }

    /// Writes a lower node's upper one.
    pub fn set(&mut self, lower: usize, upper: Key)
        requires { lower < length self.old }
        ensures here { get_or self.new lower 0 ≡ upper.number }
        ensures others { (k : ℕ) → k ≢ lower → get_or self.new k 0 ≡ get_or self.old k 0 }
        ensures room { length self.new ≡ length self.old }
    {
        self.keys[lower] = upper;
    }

    /// Makes room for lower nodes whose numbers are below the limit.
    pub fn fill(&mut self, limit: usize) -> Result<(), AllocError>
        ensures numbers { (k : ℕ) → get_or self.new k 0 ≡ get_or self.old k 0 }
        ensures more { length self.old ≤ length self.new }
        ensures room { OnOk result (limit ≤ length self.new) }
        ensures succeeds { limit ≤ length self.old → IsOk result }
    {
        fill(&mut self.keys, limit)
    }
}

// Adds keys of the number 0 until there are `limit`.
fn fill(keys: &mut Vec<Key>, limit: usize) -> Result<(), AllocError>
    ensures numbers { (k : ℕ) → get_or (numbers_of keys.new.items) k 0 ≡ get_or (numbers_of keys.old.items) k 0 }
    ensures more { length keys.old.items ≤ length keys.new.items }
    ensures room { OnOk result (limit ≤ length keys.new.items) }
    ensures succeeds { limit ≤ length keys.old.items → IsOk result }
{
    let count = keys.len();
    make_room(keys, limit.saturating_sub(count))?;
    for _ in count..limit {
        keys.push(Key::of(0))?;
    }
    Ok(())
}
