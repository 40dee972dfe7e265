// A shelf whose files are so long, and a script that has no end.
ghost use Rattle.std.specs.Prelude.{◌≤◌, None, IfOk};

use tree_outside::{Failed, Shelf, Source};

// There is a file of each name, which is no document. The open one has so many bytes left, of which a read writes the first
// alone: it would take too long to fill them all. The shelf tells nothing, keeps nothing, and never fails.
#[derive(Drop)]
pub(super) struct LongFiles {
    pub left: usize,
}

impl Shelf for LongFiles {
    ghost told = { λ _. None };

    ghost faults = { λ _. 0 };

    fn open(&mut self, _name: &str) -> Result<bool, Failed> {
        Ok(true)
    }

    fn read(&mut self, buf: &mut [u8]) -> Result<usize, Failed> {
        let count = self.left.min(buf.len());
        buf[0] = b'x';
        self.left -= count;
        Ok(count)
    }

    fn close(&mut self) {}

    fn create(&mut self, _name: &str) -> Result<(), Failed> {
        Ok(())
    }

    fn append(&mut self, _bytes: &[u8]) -> Result<(), Failed> {
        Ok(())
    }

    fn seal(&mut self) -> Result<(), Failed> {
        Ok(())
    }
}

// Lines of 4,095 `x`. It tells nothing, and never fails.
#[derive(Drop)]
pub(super) struct EndlessLines {
    // So many bytes of the line are out.
    pub out: usize,
}

impl Source for EndlessLines {
    ghost left = { λ _. None };

    ghost faults = { λ _. 0 };

    fn read(&mut self, buf: &mut [u8]) -> Result<usize, Failed> {
        let count = buf.len();
        for byte in buf.iter_mut() {
            self.out = self.out.wrapping_add(1) % 4096;
            *byte = if self.out == 0 { b'\n' } else { b'x' };
        }
        Ok(count)
    }
}
