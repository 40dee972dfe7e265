// A count of bytes.
ghost use Rattle.std.specs.Prelude.{◌≡◌};
ghost use Rattle.tree_outside.specs.ByteCounts.{counted};

use std::marker::Model;

/// How many bytes a sink got. The count stands still at 2^128 - 1; contracts see the number.
#[derive(Drop)]
pub struct ByteCount {
    bytes: u128,
}

impl Model for ByteCount {
    ghost use Rattle.std.specs.Prelude.{ℕ};

    ghost Value = { ℕ };

    ghost view = { λ c. c.bytes };
}

impl ByteCount {
    /// A count of no bytes.
    pub fn new() -> ByteCount
        ensures { result ≡ 0 }
    {
        ByteCount { bytes: 0 }
    }

    /// The same count once more.
    pub fn copy(&self) -> ByteCount
        ensures { result ≡ self.now }
    {
        ByteCount { bytes: self.bytes }
    }

    /// Counts so many bytes more.
    pub fn add(&mut self, bytes: usize)
        ensures { self.new ≡ counted self.old bytes }
    {
        self.bytes = self.bytes.saturating_add(bytes as u128);
    }

    /// How many bytes were counted, at most 2^128 - 1.
    pub fn get(&self) -> u128
        ensures { result ≡ self.now }
    {
        self.bytes
    }
}
