// A source and a sink in memory, which fail at given calls.
ghost use Rattle.std.specs.Prelude.{◌≡◌, ◌≤◌, ◌<◌, Some, [], length, IfOk, OnErr};
ghost use Rattle.tree_outside.specs.Shelf.{alone, Keeps, Loses};
ghost use Rattle.tree_outside.specs.Calls.{IsCounted};
ghost use Rattle.tree_outside.specs.Outside.{HasCause, Reads, Writes};

use crate::calls::Schedule;
use crate::unread::Unread;
use crate::{Failed, Sink, Source};
use std::alloc::Global;
use std::marker::Model;

/// A source in memory. It tells the bytes that are left.
#[derive(Drop)]
pub struct MemorySource {
    unread: Unread,
    piece: usize,
    calls: Schedule,
}

impl Model for MemorySource {
    ghost use Rattle.std.specs.Prelude.{◌<◌};
    ghost use Rattle.tree_outside.specs.Memory.{MemorySourceSeen};

    ghost Value = { MemorySourceSeen };

    ghost view = { λ s. record { left = s.unread; piece = s.piece; calls = s.calls } };

    ghost invariant = { λ s. 0 < s.piece };
}

impl MemorySource {
    /// A source of these bytes that gives at most `piece` of them a read. The reads whose number, from 0, is among
    /// `fails` fail, and no others. Each that fails counts as a fault.
    pub fn new(bytes: Vec<u8>, piece: usize, fails: Vec<u64>) -> MemorySource
        requires { 1 ≤ piece }
        ensures { result ≡ record { left = bytes.items; piece = piece; calls = record { fails = fails.items; made = 0; faults = 0 } } }
    {
        MemorySource {
            unread: Unread::new(bytes),
            piece,
            calls: Schedule::new(fails),
        }
    }

    /// How many reads were made, those that failed among them. The count ends at 2^64 - 1.
    pub fn calls(&self) -> u64
        ensures { result ≡ self.now.calls.made }
    {
        self.calls.made()
    }

    /// How often it has failed. The count ends at 2^64 - 1.
    pub fn faults(&self) -> u64
        ensures { result ≡ self.now.calls.faults }
    {
        self.calls.faults()
    }
}

impl Source for MemorySource {
    ghost left = { λ s. Some s.left };

    ghost faults = { λ s. s.calls.faults };

    fn read(&mut self, buf: &mut [u8]) -> Result<usize, Failed>
        requires { 0 < length buf.old }
        ensures count { IfOk result (λ n. n ≤ length buf.new) }
        ensures content { Reads (Some self.old.left) (Some self.new.left) result buf.new }
        ensures cause { HasCause self.old.calls.faults self.new.calls.faults result }
        ensures piece { IfOk result (λ n. n ≤ self.old.piece) }
        ensures same_piece { self.new.piece ≡ self.old.piece }
        ensures calls { IsCounted self.old.calls self.new.calls result ⊥ }
    {
        if self.calls.begin() {
            return Err(self.calls.fail());
        }
        Ok(self.unread.read(self.piece, buf))
    }
}

/// A sink in memory. It tells the bytes that it got.
#[derive(Drop)]
pub struct MemorySink {
    bytes: Vec<u8>,
    calls: Schedule,
}

impl Model for MemorySink {
    ghost use Rattle.tree_outside.specs.Memory.{MemorySinkSeen};

    ghost Value = { MemorySinkSeen };

    ghost view = { λ s. record { got = s.bytes.items; calls = s.calls } };
}

impl MemorySink {
    /// An empty sink. The writes whose number, from 0, is among `fails` fail, and of the others each that finds no memory for
    /// its bytes; one without bytes takes none. Each that fails counts as a fault.
    pub fn new(alloc: Global, fails: Vec<u64>) -> MemorySink
        ensures { result ≡ record { got = []; calls = record { fails = fails.items; made = 0; faults = 0 } } }
    {
        MemorySink {
            bytes: Vec::new(alloc),
            calls: Schedule::new(fails),
        }
    }

    /// The bytes that it got.
    pub fn bytes(&self) -> &[u8]
        ensures { result.now ≡ self.now.got }
    {
        &self.bytes
    }

    /// How many writes were made, those that failed among them. The count ends at 2^64 - 1.
    pub fn calls(&self) -> u64
        ensures { result ≡ self.now.calls.made }
    {
        self.calls.made()
    }

    /// How often it has failed. The count ends at 2^64 - 1.
    pub fn faults(&self) -> u64
        ensures { result ≡ self.now.calls.faults }
    {
        self.calls.faults()
    }
}

impl Sink for MemorySink {
    ghost got = { λ s. Some s.got };

    ghost kept = { λ _. alone };

    ghost faults = { λ s. s.calls.faults };

    // A write that fails adds nothing.
    fn write(&mut self, bytes: &[u8]) -> Result<(), Failed>
        ensures content { Writes (Some self.old.got) (Some self.new.got) result bytes.now }
        ensures kept { Keeps alone alone }
        ensures lost { Loses alone (Some self.old.got) (Some self.new.got) result }
        ensures cause { HasCause self.old.calls.faults self.new.calls.faults result }
        ensures nothing { OnErr result (self.new.got ≡ self.old.got) }
        ensures calls { IsCounted self.old.calls self.new.calls result (0 < length bytes.now) }
    {
        if self.calls.begin() || self.bytes.extend_from_slice(bytes).is_err() {
            return Err(self.calls.fail());
        }
        Ok(())
    }
}
