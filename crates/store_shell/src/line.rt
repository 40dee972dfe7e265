// The line of a script that is being read.
ghost use Rattle.std.specs.Prelude.{◌≡◌, [], Some, IfOk};
ghost use Rattle.std.specs.Option.{option_copied};
ghost use Rattle.store_shell.specs.Lines.{pushed};

use std::alloc::{AllocError, Global};
use std::marker::Model;

/// How many bytes a line may have.
pub const LINE_LIMIT: usize = 1_048_576;

/// A line so far. Its buffer has room for every line that isn't too long, so that taking a byte needs no memory. Contracts
/// see its bytes, or none where it is too long.
#[derive(Drop)]
pub struct Line {
    bytes: Vec<u8>,
    is_long: bool,
}

impl Model for Line {
    ghost use Rattle.std.specs.Prelude.{◌≤◌, ℕ, List, Option, Some, None, if◌then◌else◌, vec_len, vec_capacity};
    ghost use Rattle.store_shell.specs.Lines.{longest};

    ghost Value = { Option (List ℕ) };

    ghost view = { λ a. if a.is_long then None else Some a.bytes.items };

    ghost invariant = { λ a. (vec_len a.bytes ≤ longest) × (longest ≤ vec_capacity a.bytes) };
}

impl Line {
    /// An empty line, with its buffer.
    pub fn new(alloc: Global) -> Result<Line, AllocError>
        ensures { IfOk result (λ line. line ≡ Some []) }
    {
        let bytes = Vec::with_capacity(alloc, LINE_LIMIT)?;
        Ok(Line {
            bytes,
            is_long: false,
        })
    }

    /// One byte more.
    pub fn push(&mut self, byte: u8)
        ensures { self.new ≡ pushed self.old byte }
    {
        if self.is_long {
            return;
        }
        if self.bytes.len() == LINE_LIMIT {
            self.is_long = true;
            return;
        }
        let _ = self.bytes.push(byte);
    }

    pub fn clear(&mut self)
        ensures { self.new ≡ Some [] }
    {
        self.bytes.clear();
        self.is_long = false;
    }

    /// The line, or None where it is too long.
    pub fn bytes(&self) -> Option<&[u8]>
        ensures { option_copied result ≡ self.now }
    {
        if self.is_long {
            None
        } else {
            Some(&self.bytes)
        }
    }
}
