// The attributes that stand one behind another, with no other node between.
ghost use Rattle.std.specs.Prelude.{◌≡◌, ◌≤◌, ◌<◌, ◌+◌, ◌^◌, ◌↔◌, ℕ, List, [], ◌∷◌, true, false, length, get_or, slice_get, IfOk};
ghost use Rattle.grammar_file.specs.Marks.{valued};
ghost use Rattle.grammar_file.specs.Unlike.{AreBehind, GoOn, is_attribute};

use crate::text_lists::Mark;
use plain_tree::{Kind, Names};
use std::alloc::{AllocError, Global};

/// Which attributes came since another node did: those whose last text stands behind that node. So nothing has to be forgotten when
/// another node comes.
#[derive(Drop)]
pub(crate) struct Attributes {
    /// For each symbol the number of its last attribute's text, the first being one, and zero where none came.
    last: Vec<u64>,
    /// How many texts had come when another node did.
    begin: u64,
}

impl Attributes {
    /// No attributes of so many names.
    pub(crate) fn new(alloc: Global, names: usize) -> Result<Attributes, AllocError>
        ensures { IfOk result (λ a. AreBehind a names 0) }
    {
        Ok(Attributes {
            last: vec![in alloc; 0; names]?,
            begin: 0,
        })
    }

    /// Takes in a node behind so many texts, and tells whether it isn't an attribute that came since another node did.
    pub(crate) fn admit(&mut self, names: &Names, mark: Mark, texts: u64) -> bool
        requires behind { AreBehind self.old (length names.now) texts }
        requires few { texts < 2 ^ 63 }
        ensures behind { AreBehind self.new (length names.now) (texts + length (valued (mark ∷ []))) }
        ensures yes { result ≡ true → (ms : List Mark) → GoOn names.now self.old (mark ∷ ms) ↔ GoOn names.now self.new ms }
        ensures no { result ≡ false → (ms : List Mark) → GoOn names.now self.old (mark ∷ ms) → ⊥ }
    {
        match mark {
            Mark::Valued(symbol) if is_attribute(names, symbol) => {
                let is_new = self.last[symbol] <= self.begin;
                self.last[symbol] = texts + 1;
                is_new
            }
            _ => {
                self.begin = texts;
                true
            }
        }
    }
}

fn is_attribute(names: &Names, symbol: usize) -> bool
    ensures { result ≡ is_attribute (slice_get names.now symbol) }
{
    matches!(names.at(symbol), Some((Kind::Attribute, _)))
}
