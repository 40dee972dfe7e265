// Why no schema was read.
use std::alloc::{AllocError, AllocFailed};
use thiserror::Error;

/// Why bytes gave no schema.
#[derive(Clone, Copy, Debug, PartialEq, Eq, Drop, Error)]
pub enum SchemaError {
    /// They are not in the grammar of schemas, or give two models to one name.
    #[error("bad schema")]
    Bad = 1,
    /// They are in the grammar and pass its limits.
    #[error("large schema")]
    Large = 2,
    /// There was no memory.
    #[error("no memory to read the schema")]
    Memory = 3,
}

impl From<AllocError> for SchemaError {
    ghost use Rattle.std.specs.Prelude.{◌≡◌};
    ghost use Rattle.content_models.specs.declared.error.SchemaError.TheVariants.{Memory};

    ghost from_gives = { λ _ e. e ≡ Memory };

    fn from(_: AllocError) -> SchemaError {
        SchemaError::Memory
    }
}

impl<T: Drop> From<AllocFailed<T>> for SchemaError {
    ghost use Rattle.std.specs.Prelude.{◌≡◌};
    ghost use Rattle.content_models.specs.declared.error.SchemaError.TheVariants.{Memory};

    ghost from_gives = { λ _ e. e ≡ Memory };

    fn from(_: AllocFailed<T>) -> SchemaError {
        SchemaError::Memory
    }
}

impl From<ReadError> for SchemaError {
    ghost use Rattle.std.specs.Prelude.{◌≡◌};
    ghost use Rattle.content_models.specs.Errors.{as_schema};

    ghost from_gives = { λ f e. e ≡ as_schema f };

    fn from(error: ReadError) -> SchemaError {
        match error {
            ReadError::Bad => SchemaError::Bad,
            ReadError::Memory => SchemaError::Memory,
        }
    }
}

/// Why a line or a part of it was not read.
#[derive(Clone, Copy, Debug, PartialEq, Eq, Drop)]
pub(crate) enum ReadError {
    /// It is not in the grammar of schemas.
    Bad,
    /// There was no memory.
    Memory,
}

impl From<AllocError> for ReadError {
    ghost use Rattle.std.specs.Prelude.{◌≡◌};
    ghost use Rattle.content_models.specs.declared.error.ReadError.TheVariants.{Memory};

    ghost from_gives = { λ _ e. e ≡ Memory };

    fn from(_: AllocError) -> ReadError {
        ReadError::Memory
    }
}

impl<T: Drop> From<AllocFailed<T>> for ReadError {
    ghost use Rattle.std.specs.Prelude.{◌≡◌};
    ghost use Rattle.content_models.specs.declared.error.ReadError.TheVariants.{Memory};

    ghost from_gives = { λ _ e. e ≡ Memory };

    fn from(_: AllocFailed<T>) -> ReadError {
        ReadError::Memory
    }
}
