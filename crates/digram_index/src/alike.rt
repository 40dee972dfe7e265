// Occurrences of one digram, one after another.
ghost use Rattle.std.specs.Prelude.{◌≢◌, IfSome, None};
ghost use Rattle.digram_index.specs.Linked.{cell};

use crate::index::Index;
use slt_grammar::Key;

impl Index {
    /// The lower node of the linked occurrence of the same digram that was linked next, of those that are left.
    pub fn next_alike(&self, lower: Key) -> Option<Key>
        requires { cell self.now lower.number ≢ None }
        ensures { IfSome result (λ key. cell self.now key.number ≢ None) }
    {
        let _len = self.entries.len();
        match self.entries.next_alike(lower.number()) {
            Some(number) => Some(Key::of(number)),
            None => None,
        }
    }
}
