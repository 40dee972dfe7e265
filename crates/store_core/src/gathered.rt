// Bytes that are gathered before they are written.
ghost use Rattle.std.specs.Prelude.{◌≡◌, ◌≤◌, ◌++◌, [], Some, OnOk};
ghost use Rattle.tree_outside.specs.Outside.{HasCause, Writes};
ghost use Rattle.tree_outside.specs.Shelf.{Keeps, alone};

use crate::answer::add;
use crate::listing::{Held, write_held};
use arrayvec::ArrayVec;
use tree_outside::{Failed, Sink};

/// A sink that holds what it gets, and fails where it has no room.
#[derive(Drop)]
pub(crate) struct Gathered {
    pub(crate) bytes: Held,
    pub(crate) faults: u64,
}

impl Gathered {
    pub(crate) fn new() -> Gathered
        ensures { result.bytes.items ≡ [] }
    {
        Gathered {
            bytes: ArrayVec::new(),
            faults: 0,
        }
    }

    /// Writes what it holds, if anything.
    pub(crate) fn write_to<K: Sink>(&mut self, sink: &mut K) -> Result<(), Failed>
        ensures written { Writes (K.got sink.old) (K.got sink.new) result self.old.bytes.items }
        ensures empty { OnOk result (self.new.bytes.items ≡ []) }
        ensures kept { Keeps (K.kept sink.old) (K.kept sink.new) }
        ensures cause { HasCause (K.faults sink.old) (K.faults sink.new) result }
    {
        write_held(&mut self.bytes, sink)
    }
}

impl Sink for Gathered {
    ghost got = { λ g. Some g.bytes.items };

    ghost kept = { λ _. alone };

    ghost faults = { λ g. g.faults };

    fn write(&mut self, bytes: &[u8]) -> Result<(), Failed> {
        if bytes.len() > self.bytes.remaining_capacity() {
            self.faults = self.faults.saturating_add(1);
            return Err(Failed);
        }
        add(&mut self.bytes, bytes);
        Ok(())
    }
}
