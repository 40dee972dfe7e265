// A source and a sink over a reader and a writer of the system. They tell no content.
ghost use Rattle.std.specs.Prelude.{◌≡◌, ◌≤◌, None, IfOk, length};
ghost use Rattle.tree_outside.specs.Shelf.{alone};

use crate::calls::one_more;
use crate::{Failed, Sink, Source};
use std::io::{self, ErrorKind, Read, Write};
use std::marker::Model;

/// A source over a reader. Contracts see the count of its faults.
#[derive(Drop)]
pub struct RealSource<R: Read> {
    input: R,
    faults: u64,
}

impl<R: Read> Model for RealSource<R> {
    ghost use Rattle.std.specs.Prelude.{ℕ};

    ghost Value = { ℕ };

    ghost view = { λ s. s.faults };
}

impl<R: Read> RealSource<R> {
    /// A source over this reader. A read that a signal interrupts is tried again; each other error is a fault.
    pub fn new(input: R) -> RealSource<R>
        ensures { result ≡ 0 }
    {
        RealSource { input, faults: 0 }
    }
}

impl<R: Read> Source for RealSource<R> {
    ghost left = { λ _. None };

    ghost faults = { λ s. s };

    fn read(&mut self, buf: &mut [u8]) -> Result<usize, Failed> {
        match read_some(&mut self.input, buf) {
            Ok(count) => Ok(count),
            Err(_) => {
                self.faults = one_more(self.faults);
                Err(Failed)
            }
        }
    }
}

/// Reads once, and again where a signal interrupts the call.
pub fn read_some<R: Read>(input: &mut R, buf: &mut [u8]) -> io::Result<usize>
    ensures { IfOk result (λ n. n ≤ length buf.new) }
{
    for _ in 0..u64::MAX {
        match input.read(buf) {
            Err(error) if error.kind() == ErrorKind::Interrupted => {}
            done => return done,
        }
    }
    Err(io::Error::from(ErrorKind::Interrupted))
}

/// A sink over a writer. Contracts see the count of its faults.
#[derive(Drop)]
pub struct RealSink<W: Write> {
    output: W,
    faults: u64,
}

impl<W: Write> Model for RealSink<W> {
    ghost use Rattle.std.specs.Prelude.{ℕ};

    ghost Value = { ℕ };

    ghost view = { λ s. s.faults };
}

impl<W: Write> RealSink<W> {
    /// A sink over this writer. Each write goes on until all is taken, and flushes where it ends a line; an error or an empty write is
    /// a fault.
    pub fn new(output: W) -> RealSink<W>
        ensures { result ≡ 0 }
    {
        RealSink { output, faults: 0 }
    }
}

impl<W: Write> Sink for RealSink<W> {
    ghost got = { λ _. None };

    ghost kept = { λ _. alone };

    ghost faults = { λ s. s };

    fn write(&mut self, bytes: &[u8]) -> Result<(), Failed> {
        match write_whole(&mut self.output, bytes) {
            Ok(()) => Ok(()),
            Err(_) => {
                self.faults = one_more(self.faults);
                Err(Failed)
            }
        }
    }
}

// `write_all` goes on after a short write and after an interrupted one, and takes an empty one as an error. A writer may gather what it
// takes up to the end of a line, so that many pieces of a document go out at once, and each answer when it is whole.
fn write_whole<W: Write>(output: &mut W, bytes: &[u8]) -> io::Result<()> {
    output.write_all(bytes)?;
    if !bytes.ends_with(b"\n") {
        return Ok(());
    }
    output.flush()
}
