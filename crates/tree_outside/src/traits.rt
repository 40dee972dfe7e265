// The outside as three traits: where bytes come from, where they go, and a shelf of files.
ghost use Rattle.std.specs.Prelude.{◌≡◌, ◌<◌, ◌≤◌, ℕ, List, [], length, Option, IfOk};
ghost use Rattle.tree_outside.specs.Outside.{HasCause, Reads, Writes};
ghost use Rattle.tree_outside.specs.Files.{Files, Told};
ghost use Rattle.tree_outside.specs.Shelf.{Kept, Keeps, Loses, Opens, Becomes, ReadsFile, Changes, nothing_open, created, appended, sealed};

/// A call failed. It comes only where the object's count of faults rose in that call, or stood at its last value.
#[derive(Clone, Copy, Debug, PartialEq, Eq)]
pub struct Failed;

/// Where bytes come from. Where it tells the bytes that are left before a call, it tells them after it too.
pub trait Source {
    /// The bytes that are left, where it tells them.
    ghost left: { Self → Option (List ℕ) };

    /// How often it has failed; at 2^64 - 1 the count stands still.
    ghost faults: { Self → ℕ };

    /// Puts the first bytes that are left at the buffer's front, and answers how many: 0 only where nothing is left. A read
    /// that fails takes nothing.
    fn read(&mut self, buf: &mut [u8]) -> Result<usize, Failed>
        requires { 0 < length buf.old }
        ensures count { IfOk result (λ n. n ≤ length buf.new) }
        ensures content { Reads (left self.old) (left self.new) result buf.new }
        ensures cause { HasCause (faults self.old) (faults self.new) result };
}

/// Where bytes go. Where it tells the bytes that it got before a call, it tells them after an Ok; after `Failed` it may
/// tell none.
pub trait Sink {
    /// The bytes that it got, where it tells them.
    ghost got: { Self → Option (List ℕ) };

    /// What no write changes: where they go, and what is beside them there.
    ghost kept: { Self → Kept };

    /// How often it has failed; at 2^64 - 1 the count stands still.
    ghost faults: { Self → ℕ };

    /// Adds all the bytes, or fails and has added a front of them; a pending file that it writes to is then given up.
    fn write(&mut self, bytes: &[u8]) -> Result<(), Failed>
        ensures content { Writes (got self.old) (got self.new) result bytes.now }
        ensures kept { Keeps (kept self.old) (kept self.new) }
        ensures lost { Loses (kept self.old) (got self.old) (got self.new) result }
        ensures cause { HasCause (faults self.old) (faults self.new) result };
}

/// Files under names, one of which may be open and one pending. No call has to fail because it was made at a wrong moment.
/// Only an Ok of `seal` changes the files. A `create`, `append` or `seal` that fails leaves nothing pending.
pub trait Shelf {
    /// The files, what is left of the open one, and the pending one, where it tells them.
    ghost told: { Self → Option Told };

    /// How often it has failed; at 2^64 - 1 the count stands still.
    ghost faults: { Self → ℕ };

    /// Opens a file, and answers whether there is one of this name. It ends an earlier reading; where it fails or answers
    /// false, nothing is open.
    fn open(&mut self, name: &str) -> Result<bool, Failed>
        ensures content { Opens (told self.old) (told self.new) result name.now }
        ensures cause { HasCause (faults self.old) (faults self.new) result };

    /// Puts the first bytes that are left of the open file at the buffer's front, and answers how many: 0 only where nothing
    /// is left, as where nothing is open.
    fn read(&mut self, buf: &mut [u8]) -> Result<usize, Failed>
        requires { 0 < length buf.old }
        ensures count { IfOk result (λ n. n ≤ length buf.new) }
        ensures content { ReadsFile (told self.old) (told self.new) result buf.new }
        ensures cause { HasCause (faults self.old) (faults self.new) result };

    /// Ends the reading.
    fn close(&mut self)
        ensures content { Becomes (told self.old) (told self.new) nothing_open }
        ensures cause { faults self.old ≤ faults self.new };

    /// Begins an empty pending file, and gives up an earlier one.
    fn create(&mut self, name: &str) -> Result<(), Failed>
        ensures content { Changes (told self.old) (told self.new) result (created name.now) }
        ensures cause { HasCause (faults self.old) (faults self.new) result };

    /// Adds bytes to the pending file, if there is one.
    fn append(&mut self, bytes: &[u8]) -> Result<(), Failed>
        ensures content { Changes (told self.old) (told self.new) result (appended bytes.now) }
        ensures cause { HasCause (faults self.old) (faults self.new) result };

    /// Puts the pending file under its name, if there is one.
    fn seal(&mut self) -> Result<(), Failed>
        ensures content { Changes (told self.old) (told self.new) result sealed }
        ensures cause { HasCause (faults self.old) (faults self.new) result };
}
