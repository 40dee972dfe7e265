// Real objects over devices that are interrupted. What a save does to real files stands in `saves`; in `scripts` they are
// loaded and saved.
ghost use Rattle.std.specs.Prelude.{◌≤◌, IfOk};

use std::io::{self, ErrorKind, Read, Write};
use tree_outside::{Failed, RealSink, RealSource, Sink, Source};

mod saves;
mod unsynced;

// A device that is interrupted at every other call, and gives or takes one byte at the others, while it has room.
#[derive(Drop)]
struct Halting {
    calls: u32,
    room: u32,
}

impl Halting {
    fn step(&mut self, most: usize) -> io::Result<usize>
        ensures { IfOk result (λ n. n ≤ most) }
    {
        self.calls = self.calls.wrapping_add(1);
        if self.calls % 2 == 1 {
            return Err(io::Error::from(ErrorKind::Interrupted));
        }
        if self.room == 0 || most == 0 {
            return Ok(0);
        }
        self.room -= 1;
        Ok(1)
    }
}

impl Read for Halting {
    fn read(&mut self, buf: &mut [u8]) -> io::Result<usize> {
        self.step(buf.len())
    }
}

impl Write for Halting {
    fn write(&mut self, buf: &[u8]) -> io::Result<usize> {
        self.step(buf.len())
    }

    fn flush(&mut self) -> io::Result<()> {
        Ok(())
    }
}

#[test]
fn an_interrupted_call_is_tried_again(rt: HostRuntime) {
    let mut buf = [0u8; 4];
    let mut source = RealSource::new(Halting { calls: 0, room: 1 });
    assert!(rt; source.read(&mut buf) == Ok(1) && source.read(&mut buf) == Ok(0));
    let mut sink = RealSink::new(Halting { calls: 0, room: 3 });
    assert!(rt; sink.write(b"ab") == Ok(()));
    assert!(rt;
        sink.write(b"cd") == Err(Failed),
        "an empty write is a fault"
    );
}
