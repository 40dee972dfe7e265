// A place in the bytes of a file.
ghost use Rattle.std.specs.Prelude.{◌≡◌, ◌<◌, ◌≤◌, ◌^◌, ◌↔◌, [], ◌∷◌, IsTrue, length};
ghost use Rattle.grammar_file.specs.FileBytes.{text_bytes};
ghost use Rattle.grammar_file.specs.Numbers.{number_bytes};
ghost use Rattle.grammar_file.specs.Reading.{Reads, ReadsAs};
ghost use Rattle.grammar_file.specs.Versions.{mark_of};

use crate::error::FileError;
use std::marker::Model;

/// The bytes that are left. After a call that was refused no further call is made.
#[derive(Drop)]
pub(crate) struct Scan<'a> {
    left: &'a [u8],
}

/// The version of a file: with the texts as they come, or with each different one once.
#[derive(Clone, Copy, Drop)]
pub(crate) enum Version {
    First,
    Second,
}

impl<'a> Model for Scan<'a> {
    ghost use Rattle.std.specs.Prelude.{List, ℕ};

    ghost Value = { List ℕ };

    ghost view = { λ s. s.left.now };
}

impl<'a> Scan<'a> {
    pub(crate) fn new(bytes: &'a [u8]) -> Scan<'a>
        ensures { result ≡ bytes.now }
    {
        Scan { left: bytes }
    }

    pub(crate) fn is_empty(&self) -> bool
        ensures { IsTrue result ↔ (self.now ≡ []) }
    {
        self.left.is_empty()
    }

    pub(crate) fn len(&self) -> usize
        ensures value { result ≡ length self.now }
        ensures few { result < 2 ^ 63 }
    {
        self.left.len()
    }

    /// The mark at the front of each file, which tells its version.
    pub(crate) fn mark(&mut self) -> Result<Version, FileError>
        ensures { Reads (λ _. Unit {0}) mark_of self.old result self.new }
    {
        if let Some(rest) = self.left.strip_prefix(b"TGF1") {
            self.left = rest;
            return Ok(Version::First);
        }
        if let Some(rest) = self.left.strip_prefix(b"TGF2") {
            self.left = rest;
            return Ok(Version::Second);
        }
        Err(FileError::Bad)
    }

    pub(crate) fn byte(&mut self) -> Result<u8, FileError>
        ensures { Reads (λ _. Unit {0}) (λ b. b ∷ []) self.old result self.new }
    {
        match self.left {
            [first, rest @ ..] => {
                let byte = *first;
                self.left = rest;
                Ok(byte)
            }
            [] => Err(FileError::Bad),
        }
    }

    /// A number that is at most `most`. It calls itself at most nine times.
    pub(crate) fn number(&mut self, most: usize) -> Result<usize, FileError>
        ensures { Reads (λ n. n ≤ most) number_bytes self.old result self.new }
    {
        let byte = self.byte()? as usize;
        // No number is less than its first byte.
        if byte > most {
            return Err(FileError::Bad);
        }
        if byte < 128 {
            return Ok(byte);
        }
        let high = self.number(most / 128)?;
        let low = byte - 128;
        // Where nothing is behind the seven bits, a byte less would do.
        if high == 0 || low > most - 128 * high {
            return Err(FileError::Bad);
        }
        Ok(low + 128 * high)
    }

    /// The place of one of so many things.
    pub(crate) fn place(&mut self, count: usize) -> Result<usize, FileError>
        ensures { Reads (λ n. n < count) number_bytes self.old result self.new }
    {
        if count == 0 {
            return Err(FileError::Bad);
        }
        self.number(count - 1)
    }

    /// How many things follow, of which each has a byte at least.
    pub(crate) fn count(&mut self) -> Result<usize, FileError>
        ensures { Reads (λ n. n ≤ length self.old) number_bytes self.old result self.new }
    {
        self.number(self.left.len())
    }

    /// A length and so many bytes.
    pub(crate) fn text(&mut self) -> Result<&'a [u8], FileError>
        ensures { ReadsAs (λ t. t.now) (λ _. Unit {0}) text_bytes self.old result self.new }
    {
        let len = self.count()?;
        if len > self.left.len() {
            return Err(FileError::Bad);
        }
        let (text, rest) = self.left.split_at(len);
        self.left = rest;
        Ok(text)
    }
}
