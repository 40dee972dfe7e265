// Nodes that are marked until they are unlinked.
ghost use Rattle.std.specs.Prelude.{◌≡◌, ◌≢◌, ℕ, None, IsTrue, MatchBool, false, true};
ghost use Rattle.digram_index.specs.Linked.{cell, is_marked};

use crate::flags::{clear_all, is_set, set};
use crate::index::Index;
use slt_grammar::Key;

impl Index {
    /// Marks a node, where it is linked and there is memory, and tells whether it did. It is marked until it is unlinked.
    pub fn mark(&mut self, key: Key) -> bool
        ensures here { MatchBool result (is_marked self.new key.number ≡ true) (is_marked self.new key.number ≡ is_marked self.old key.number) }
        ensures others { (k : ℕ) → k ≢ key.number → is_marked self.new k ≡ is_marked self.old k }
        ensures index { self.new ≡ record self.old { marked = self.new.marked } }
    {
        if !self.is_linked(key) {
            return false;
        }
        set(&mut self.marked, key.number())
    }

    /// Marks no node any more.
    pub fn unmark_all(&mut self)
        ensures none { (k : ℕ) → is_marked self.new k ≡ false }
        ensures index { self.new ≡ record self.old { marked = self.new.marked } }
    {
        clear_all(&mut self.marked);
    }

    /// Whether a node is marked.
    pub fn is_marked(&self, key: Key) -> bool
        ensures value { result ≡ is_marked self.now key.number }
        ensures linked { (k : ℕ) → IsTrue (is_marked self.now k) → cell self.now k ≢ None }
    {
        is_set(self.marked.as_slice(), key.number())
    }
}
