// A shelf in memory, which fails at given calls.
ghost use Rattle.std.specs.Prelude.{◌≡◌, ◌≤◌, ◌<◌, [], Some, length, OnOk, OnErr, IfOk, IsSome, unwrap_or};
ghost use Rattle.std.specs.Option.{option_copied};
ghost use Rattle.std.specs.FinMap.{get, insert};
ghost use Rattle.tree_outside.specs.Calls.{IsCounted};
ghost use Rattle.tree_outside.specs.Memory.{at_rest};
ghost use Rattle.tree_outside.specs.MemoryFiles.{files_of};
ghost use Rattle.tree_outside.specs.Outside.{HasCause};
ghost use Rattle.tree_outside.specs.Shelf.{Opens, ReadsFile, Changes, nothing_open, created, appended, sealed};

use crate::calls::Schedule;
use crate::unread::Unread;
use crate::{Failed, Shelf};
use std::alloc::{AllocError, Global};
use std::collections::BTreeMap;
use std::marker::Model;

/// A shelf in memory. It tells its files, and what is open and pending.
#[derive(Drop)]
pub struct MemoryShelf {
    alloc: Global,
    files: BTreeMap<String, Vec<u8>>,
    opened: Unread,
    name: String,
    pending: Option<Vec<u8>>,
    piece: usize,
    calls: Schedule,
}

impl Model for MemoryShelf {
    ghost use Rattle.std.specs.Prelude.{◌<◌, string_bytes};
    ghost use Rattle.std.specs.Option.{option_map};
    ghost use Rattle.tree_outside.specs.Memory.{MemoryShelfSeen, coded_shelf};
    ghost use Rattle.tree_outside.specs.MemoryFiles.{files_of};

    ghost Value = { MemoryShelfSeen };

    ghost coded = { coded_shelf };

    ghost view = { λ s. record {
      told = record { files = files_of s.files; left = s.opened; name = string_bytes s.name; pending = option_map (λ v. v.items) s.pending };
      piece = s.piece;
      calls = s.calls;
    } };

    ghost invariant = { λ s. 0 < s.piece };
}

impl MemoryShelf {
    /// A shelf of these files, of which a read gives at most `piece` bytes. The calls whose number is among `fails`
    /// fail, all but `close` counted together from 0, and of the others each that finds no memory for what it takes: `open` for a
    /// file's bytes, `create` for a name, `append` for bytes where a file is pending, `seal` for a pending file. Where there is
    /// none of these, as for an empty name or no bytes, and in `read`, no memory is taken. Each call that fails counts as a fault.
    pub fn new(
        alloc: Global,
        files: BTreeMap<String, Vec<u8>>,
        piece: usize,
        fails: Vec<u64>,
    ) -> MemoryShelf
        requires { 1 ≤ piece }
        ensures { result ≡ record { told = at_rest (files_of files); piece = piece; calls = record { fails = fails.items; made = 0; faults = 0 } } }
    {
        MemoryShelf {
            alloc,
            files,
            opened: Unread::new(Vec::new(alloc)),
            name: String::new(alloc),
            pending: None,
            piece,
            calls: Schedule::new(fails),
        }
    }

    /// The bytes of the file of this name, or None where there is none.
    pub fn file(&self, name: &str) -> Option<&[u8]>
        ensures { option_copied result ≡ get self.now.told.files name.now }
    {
        file_of(&self.files, name)
    }

    /// How many calls, all but `close`, were made, those that failed among them. The count ends at 2^64 - 1.
    pub fn calls(&self) -> u64
        ensures { result ≡ self.now.calls.made }
    {
        self.calls.made()
    }

    /// How often it has failed. The count ends at 2^64 - 1.
    pub fn faults(&self) -> u64
        ensures { result ≡ self.now.calls.faults }
    {
        self.calls.faults()
    }
}

impl Shelf for MemoryShelf {
    ghost told = { λ s. Some s.told };

    ghost faults = { λ s. s.calls.faults };

    // Memory is taken for a copy of the file alone: a `seal` under its name must not change what is left of it.
    fn open(&mut self, name: &str) -> Result<bool, Failed>
        ensures content { Opens (Some self.old.told) (Some self.new.told) result name.now }
        ensures cause { HasCause self.old.calls.faults self.new.calls.faults result }
        ensures calls { IsCounted self.old.calls self.new.calls result (0 < length (unwrap_or (get self.old.told.files name.now) [])) }
        ensures same_piece { self.new.piece ≡ self.old.piece }
    {
        self.close();
        if self.calls.begin() {
            return Err(self.calls.fail());
        }
        let Some(bytes) = file_of(&self.files, name) else {
            return Ok(false);
        };
        if self.opened.replace(bytes).is_err() {
            return Err(self.calls.fail());
        }
        Ok(true)
    }

    fn read(&mut self, buf: &mut [u8]) -> Result<usize, Failed>
        requires { 0 < length buf.old }
        ensures count { IfOk result (λ n. n ≤ length buf.new) }
        ensures content { ReadsFile (Some self.old.told) (Some self.new.told) result buf.new }
        ensures cause { HasCause self.old.calls.faults self.new.calls.faults result }
        ensures piece { IfOk result (λ n. n ≤ self.old.piece) }
        ensures calls { IsCounted self.old.calls self.new.calls result ⊥ }
        ensures same_piece { self.new.piece ≡ self.old.piece }
    {
        if self.calls.begin() {
            return Err(self.calls.fail());
        }
        Ok(self.opened.read(self.piece, buf))
    }

    fn close(&mut self)
        ensures { self.new ≡ record self.old { told = nothing_open self.old.told } }
    {
        self.opened.clear();
    }

    fn create(&mut self, name: &str) -> Result<(), Failed>
        ensures content { Changes (Some self.old.told) (Some self.new.told) result (created name.now) }
        ensures cause { HasCause self.old.calls.faults self.new.calls.faults result }
        ensures calls { IsCounted self.old.calls self.new.calls result (0 < length name.now) }
        ensures same_piece { self.new.piece ≡ self.old.piece }
    {
        self.pending = None;
        if self.calls.begin() {
            return Err(self.calls.fail());
        }
        let mut copy = String::new(self.alloc);
        if copy.push_str(name).is_err() {
            return Err(self.calls.fail());
        }
        self.name = copy;
        self.pending = Some(Vec::new(self.alloc));
        Ok(())
    }

    fn append(&mut self, bytes: &[u8]) -> Result<(), Failed>
        ensures content { Changes (Some self.old.told) (Some self.new.told) result (appended bytes.now) }
        ensures cause { HasCause self.old.calls.faults self.new.calls.faults result }
        ensures calls { IsCounted self.old.calls self.new.calls result (IsSome self.old.told.pending × 0 < length bytes.now) }
        ensures same_piece { self.new.piece ≡ self.old.piece }
    {
        let pending = self.pending.take();
        if self.calls.begin() {
            return Err(self.calls.fail());
        }
        let Some(mut all) = pending else {
            return Ok(());
        };
        if all.extend_from_slice(bytes).is_err() {
            return Err(self.calls.fail());
        }
        self.pending = Some(all);
        Ok(())
    }

    fn seal(&mut self) -> Result<(), Failed>
        ensures content { Changes (Some self.old.told) (Some self.new.told) result sealed }
        ensures cause { HasCause self.old.calls.faults self.new.calls.faults result }
        ensures calls { IsCounted self.old.calls self.new.calls result (IsSome self.old.told.pending) }
        ensures same_piece { self.new.piece ≡ self.old.piece }
    {
        let pending = self.pending.take();
        if self.calls.begin() {
            return Err(self.calls.fail());
        }
        let Some(whole) = pending else {
            return Ok(());
        };
        if put_file(self.alloc, &mut self.files, self.name.as_str(), whole).is_err() {
            return Err(self.calls.fail());
        }
        Ok(())
    }
}

fn file_of<'a>(files: &'a BTreeMap<String, Vec<u8>>, name: &str) -> Option<&'a [u8]>
    ensures { option_copied result ≡ get (files_of files.now) name.now }
{
    match files.get(name) {
        None => None,
        Some(bytes) => Some(bytes.as_slice()),
    }
}

fn put_file(
    alloc: Global,
    files: &mut BTreeMap<String, Vec<u8>>,
    name: &str,
    bytes: Vec<u8>,
) -> Result<(), AllocError>
    ensures ok { OnOk result (files_of files.new ≡ insert (files_of files.old) name.now bytes.items) }
    ensures err { OnErr result (files_of files.new ≡ files_of files.old) }
{
    let key = String::from_str(alloc, name)?;
    files.insert(key, bytes)?;
    Ok(())
}
