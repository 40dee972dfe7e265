// The bytes in memory that were not read yet.
ghost use Rattle.std.specs.Prelude.{◌≡◌, ◌≤◌, ◌<◌, [], ◌++◌, take, length, OnOk, OnErr};

use std::alloc::AllocError;
use std::marker::Model;

#[derive(Drop)]
pub struct Unread {
    bytes: Vec<u8>,
    at: usize,
}

impl Model for Unread {
    ghost use Rattle.std.specs.Prelude.{◌≤◌, ℕ, List, drop, vec_len};

    ghost Value = { List ℕ };

    ghost view = { λ a. drop a.at a.bytes.items };

    ghost invariant = { λ a. a.at ≤ vec_len a.bytes };
}

impl Unread {
    pub fn new(bytes: Vec<u8>) -> Unread
        ensures { result ≡ bytes.items }
    {
        Unread { bytes, at: 0 }
    }

    /// Moves the first bytes to the buffer's front, at most so many, and answers how many.
    pub fn read(&mut self, most: usize, buf: &mut [u8]) -> usize
        requires moves { 0 < most }
        requires room { 0 < length buf.old }
        ensures fits { result ≤ length buf.new }
        ensures within { result ≤ most }
        ensures taken { self.old ≡ take result buf.new ++ self.new }
        ensures end { result ≡ 0 → self.old ≡ [] }
    {
        let count = copy_front(&self.bytes[self.at..], most, buf);
        self.at += count;
        count
    }

    /// Forgets what was there, and holds a copy of these bytes, or nothing where there is no memory for it.
    pub fn replace(&mut self, bytes: &[u8]) -> Result<(), AllocError>
        ensures ok { OnOk result (self.new ≡ bytes.now) }
        ensures err { OnErr result (self.new ≡ []) }
        ensures memory { OnErr result (0 < length bytes.now) }
    {
        self.clear();
        self.bytes.extend_from_slice(bytes)
    }

    pub fn clear(&mut self)
        ensures { self.new ≡ [] }
    {
        self.at = 0;
        self.bytes.clear();
    }
}

/// Copies the first bytes to the buffer's front, at most so many, and answers how many.
pub fn copy_front(from: &[u8], most: usize, buf: &mut [u8]) -> usize
    ensures fits { result ≤ length buf.new }
    ensures most { result ≤ most }
    ensures within { result ≤ length from.now }
    ensures copied { take result buf.new ≡ take result from.now }
    ensures moves { 0 < most → 0 < length buf.new → result ≡ 0 → length from.now ≡ 0 }
{
    let count = buf.len().min(most).min(from.len());
    buf[..count].copy_from_slice(&from[..count]);
    count
}
