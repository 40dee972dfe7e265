// The pending file of a shelf as a sink.
ghost use Rattle.std.specs.Prelude.{◌≡◌, Some};
ghost use Rattle.tree_outside.specs.Shelf.{beside_of, pending_bytes};

use crate::{Failed, Shelf, Sink};

/// A sink over the pending file of a shelf: what it gets is appended there.
#[derive(Drop)]
pub struct Pending<'a, F: Shelf> {
    shelf: &'a mut F,
}

impl<'a, F: Shelf> Pending<'a, F> {
    /// A sink over the pending file of this shelf. After a write that failed there is none, and what comes then is dropped.
    pub fn new(shelf: &'a mut F) -> Pending<'a, F>
        ensures same_reference { result.shelf.ghost_name ≡ shelf.entry.ghost_name }
        ensures same_shelf { result.shelf.now ≡ shelf.old }
    {
        Pending { shelf }
    }
}

impl<F: Shelf> Sink for Pending<'_, F> {
    ghost got = { λ p. pending_bytes (F.told p.shelf.now) };

    ghost kept = { λ p. record { lender = Some p.shelf.ghost_name; beside = beside_of (F.told p.shelf.now) } };

    ghost faults = { λ p. F.faults p.shelf.now };

    fn write(&mut self, bytes: &[u8]) -> Result<(), Failed> {
        self.shelf.append(bytes)
    }
}
