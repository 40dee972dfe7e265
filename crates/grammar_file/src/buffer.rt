// A sink that gets bytes in pieces of some kilobytes.
ghost use Rattle.std.specs.Prelude.{◌≡◌, [], ◌∷◌, OnOk};
ghost use Rattle.grammar_file.specs.Numbers.{number_bytes};
ghost use Rattle.grammar_file.specs.Buffers.{Puts};
ghost use Rattle.grammar_file.specs.BufferOf.{seen, sink_of, sink_name, held_of, count_of};

use arrayvec::ArrayVec;
use tree_outside::{ByteCount, Failed, Sink};

// How many bytes a piece has at most.
const PIECE: usize = 4096;

/// Holds bytes for a sink until a piece is full. After a call that answered `Failed` no further call may be made.
#[derive(Drop)]
pub(crate) struct Buffer<'a, K: Sink> {
    sink: &'a mut K,
    held: ArrayVec<u8, PIECE>,
    // how many bytes were put
    count: ByteCount,
}

impl<'a, K: Sink> Buffer<'a, K> {
    pub(crate) fn new(sink: &'a mut K) -> Buffer<'a, K>
        ensures same_reference { sink_name result ≡ sink.entry.ghost_name }
        ensures same_sink { sink_of result ≡ sink.old }
        ensures held { held_of result ≡ [] }
        ensures count { count_of result ≡ 0 }
    {
        Buffer {
            sink,
            held: ArrayVec::new(),
            count: ByteCount::new(),
        }
    }

    /// How many bytes were put so far. The count ends at 2^128 - 1.
    pub(crate) fn count(&self) -> u128
        ensures { result ≡ count_of self.now }
    {
        self.count.get()
    }

    /// Puts a number: seven bits a byte, the lowest first, and 128 more in each byte but the last.
    pub(crate) fn number(&mut self, number: u64) -> Result<(), Failed>
        ensures { Puts (seen K.Sink self.old) (seen K.Sink self.new) result (number_bytes number) }
    {
        let mut rest = number;
        while rest >= 128 {
            self.byte(128 + (rest % 128) as u8)?;
            rest /= 128;
        }
        self.byte(rest as u8)
    }

    pub(crate) fn byte(&mut self, byte: u8) -> Result<(), Failed>
        ensures { Puts (seen K.Sink self.old) (seen K.Sink self.new) result (byte ∷ []) }
    {
        self.bytes(&[byte])
    }

    pub(crate) fn bytes(&mut self, bytes: &[u8]) -> Result<(), Failed>
        ensures { Puts (seen K.Sink self.old) (seen K.Sink self.new) result bytes.now }
    {
        if self.held.remaining_capacity() < bytes.len() {
            self.flush()?;
        }
        self.count.add(bytes.len());
        match self.held.try_extend_from_slice(bytes) {
            Ok(()) => Ok(()),
            // They are longer than a piece, and nothing is held.
            Err(_) => self.sink.write(bytes),
        }
    }

    /// Writes the bytes that are held.
    pub(crate) fn flush(&mut self) -> Result<(), Failed>
        ensures puts { Puts (seen K.Sink self.old) (seen K.Sink self.new) result [] }
        ensures empty { OnOk result (held_of self.new ≡ []) }
    {
        self.sink.write(self.held.as_slice())?;
        self.held.clear();
        Ok(())
    }
}
