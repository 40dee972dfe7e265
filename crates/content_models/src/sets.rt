// Sets of places of models.
ghost use Rattle.std.specs.Prelude.{◌≡◌};
ghost use Rattle.std.specs.Hash as fed;

use std::alloc::{AllocError, Global};
use std::hash::{Hash, Hasher};
use std::marker::Model;

/// For each model a set of its places.
#[derive(Drop)]
pub struct Sets {
    words: Vec<u64>,
}

impl Model for Sets {
    ghost use Rattle.std.specs.Prelude.{List, ℕ};

    ghost Value = { List ℕ };

    ghost view = { λ s. s.words.items };
}

impl Sets {
    ghost use Rattle.std.specs.Prelude.{IfOk};

    pub(crate) fn from_words(alloc: Global, words: &[u64]) -> Result<Sets, AllocError>
        ensures { IfOk result (λ sets. sets ≡ words.now) }
    {
        Ok(Sets {
            words: words.to_vec(alloc)?,
        })
    }

    pub(crate) fn words(&self) -> &[u64]
        ensures { result.now ≡ self.now }
    {
        self.words.as_slice()
    }

    pub(crate) fn copy(&self) -> Result<Sets, AllocError>
        ensures { IfOk result (λ again. again ≡ self.now) }
    {
        Ok(Sets {
            words: self.words.to_vec(*self.words.allocator())?,
        })
    }
}

impl PartialEq for Sets {
    ghost use Rattle.std.specs.Str.{bytes_eq};
    ghost use Rattle.std.specs.Cmp.{partial_equiv_from_equiv};
    ghost use Rattle.content_models.specs.SameSets.{same_sets_equiv};

    ghost eq = { bytes_eq };

    ghost laws = { partial_equiv_from_equiv same_sets_equiv };

    fn eq(&self, other: &Sets) -> bool {
        self.words == other.words
    }
}

impl Eq for Sets {
    ghost use Rattle.content_models.specs.SameSets.{same_sets_equiv};

    ghost laws = { same_sets_equiv };
}

impl Hash for Sets {
    ghost use Rattle.std.proofs.Common.{ap};
    ghost use Rattle.content_models.specs.SameSets.{same_sets};

    ghost hash_input = { fed.slice fed.u64 };

    ghost respects_eq = { λ a b e. ap (fed.slice fed.u64) (same_sets a b e) };

    fn hash<H: Hasher>(&self, state: &mut H) {
        self.words.hash(state);
    }
}
