// A list of texts.
ghost use Rattle.std.specs.Prelude.{◌≡◌, ◌++◌, [], ◌∷◌, length, OnOk, OnErr, slice_get};
ghost use Rattle.std.specs.Option.{option_copied};

use crate::Bytes;
use std::alloc::{AllocError, Global};
use std::marker::Model;

/// A list of texts; contracts see a list of lists of bytes.
#[derive(Drop)]
pub struct Texts {
    texts: Vec<Bytes>,
}

impl Model for Texts {
    ghost use Rattle.std.specs.Prelude.{List, ℕ};

    ghost Value = { List (List ℕ) };

    ghost view = { λ t. t.texts.items };
}

impl Texts {
    /// No texts. It takes no memory.
    pub fn new(alloc: Global) -> Texts
        ensures { result ≡ [] }
    {
        Texts {
            texts: Vec::new(alloc),
        }
    }

    /// Adds a text at the end. It is refused only for want of memory.
    pub fn push(&mut self, text: Bytes) -> Result<(), AllocError>
        ensures ok { OnOk result (self.new ≡ self.old ++ text ∷ []) }
        ensures err { OnErr result (self.new ≡ self.old) }
    {
        self.texts.push(text)?;
        Ok(())
    }

    /// The text at a place, and None exactly where the place isn't below the length.
    pub fn get(&self, at: usize) -> Option<&Bytes>
        ensures { option_copied result ≡ slice_get self.now at }
    {
        self.texts.get(at)
    }

    pub fn len(&self) -> usize
        ensures { result ≡ length self.now }
    {
        self.texts.len()
    }

    /// The texts, in their order.
    pub fn into_vec(self) -> Vec<Bytes>
        ensures { result.items ≡ self }
    {
        self.texts
    }
}
