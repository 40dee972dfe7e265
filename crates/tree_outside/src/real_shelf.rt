// A shelf over the system's files. It tells no content.
ghost use Rattle.std.specs.Prelude.{◌≡◌, ◌≤◌, None};
ghost use Rattle.tree_outside.specs.Outside.{Rose};

use crate::calls::one_more;
use crate::part_file::PartFile;
use crate::real::read_some;
use crate::{Failed, Shelf};
use std::alloc::Global;
use std::fs;
use std::io::ErrorKind;
use std::marker::Model;
use std::rt::Files;

/// A shelf over the system's files. Contracts see the count of its faults.
///
/// Links of a name are followed, and stay. A file that `seal` replaces hands on who may read, write and run it, and nothing
/// else. Until then the pending file lies beside it, with `.part` added to its name; what had that name is removed.
#[derive(Drop)]
pub struct RealShelf<'a, R: Files> {
    alloc: Global,
    rt: &'a R,
    opened: Option<R::File>,
    pending: Option<PartFile<R>>,
    faults: u64,
}

impl<'a, R: Files> Model for RealShelf<'a, R> {
    ghost use Rattle.std.specs.Prelude.{ℕ};

    ghost Value = { ℕ };

    ghost view = { λ s. s.faults };
}

impl<'a, R: Files> RealShelf<'a, R> {
    /// A shelf over the files of this runtime. `open` answers false only where the system says that there is no such file;
    /// each other error is a fault, and so is a want of memory. `create` fails for a name that leads to a folder, a device, a
    /// pipe or a socket.
    pub fn new(alloc: Global, rt: &'a R) -> RealShelf<'a, R>
        ensures { result ≡ 0 }
    {
        RealShelf {
            alloc,
            rt,
            opened: None,
            pending: None,
            faults: 0,
        }
    }

    // Gives up the pending file, if there is one.
    fn give_up(&mut self)
        ensures { self.new ≡ self.old }
    {
        if let Some(part) = self.pending.take() {
            part.give_up(self.rt);
        }
    }

    fn fail(&mut self) -> Failed
        ensures later { self.old ≤ self.new }
        ensures rose { Rose self.old self.new }
    {
        self.faults = one_more(self.faults);
        Failed
    }
}

impl<R: Files> Shelf for RealShelf<'_, R> {
    ghost told = { λ _. None };

    ghost faults = { λ s. s };

    fn open(&mut self, name: &str) -> Result<bool, Failed> {
        self.opened = None;
        match fs::open(self.rt, name) {
            Ok(file) => {
                self.opened = Some(file);
                Ok(true)
            }
            Err(error) if error.kind() == ErrorKind::NotFound => Ok(false),
            Err(_) => Err(self.fail()),
        }
    }

    fn read(&mut self, buf: &mut [u8]) -> Result<usize, Failed> {
        let Some(file) = &mut self.opened else {
            return Ok(0);
        };
        match read_some(file, buf) {
            Ok(count) => Ok(count),
            Err(_) => Err(self.fail()),
        }
    }

    fn close(&mut self) {
        self.opened = None;
    }

    fn create(&mut self, name: &str) -> Result<(), Failed> {
        self.give_up();
        match PartFile::create(self.alloc, self.rt, name) {
            Ok(part) => {
                self.pending = Some(part);
                Ok(())
            }
            Err(_) => Err(self.fail()),
        }
    }

    fn append(&mut self, bytes: &[u8]) -> Result<(), Failed> {
        let Some(part) = &mut self.pending else {
            return Ok(());
        };
        match part.append(bytes) {
            Ok(()) => Ok(()),
            Err(_) => {
                self.give_up();
                Err(self.fail())
            }
        }
    }

    fn seal(&mut self) -> Result<(), Failed> {
        let Some(part) = self.pending.take() else {
            return Ok(());
        };
        match part.put(self.rt) {
            Ok(()) => Ok(()),
            Err(_) => Err(self.fail()),
        }
    }
}
