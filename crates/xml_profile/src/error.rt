// Why XML was not read.
use std::alloc::AllocError;
use thiserror::Error;

/// Why bytes were not read.
#[derive(Clone, Copy, Debug, PartialEq, Eq, Drop, Error)]
pub enum XmlError {
    /// They spell nothing. The place, from 0 on, is where the declaration, DOCTYPE, tag, comment, instruction, reference, section or
    /// character begins that can't be read or in which the bytes break off, and else the number of bytes.
    #[error("bad XML at byte {at}")]
    Bad { at: u64 },
    /// There was no memory.
    #[error("no memory to read XML")]
    Memory,
}

impl From<AllocError> for XmlError {
    ghost use Rattle.std.specs.Prelude.{◌≡◌};
    ghost use Rattle.xml_profile.specs.declared.error.XmlError.TheVariants.{Memory};

    ghost from_gives = { λ _ e. e ≡ Memory };

    fn from(_: AllocError) -> XmlError {
        XmlError::Memory
    }
}
