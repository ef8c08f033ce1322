//! Why bytes are not an image.
ghost use Rattle.std.specs.Prelude.{◌≡◌};
ghost use Rattle.hek_image.specs.declared.fault.LoadFault.TheVariants as load;

use hek_rules::NoMemory;
use std::alloc::{AllocError, AllocFailed};
use thiserror::Error;

/// Why no schedule was loaded: the first fault of the bytes, a failed source, or out of memory.
#[derive(Clone, Copy, Debug, PartialEq, Eq, Error)]
pub enum LoadFault {
    #[error("1 BadMagic")]
    BadMagic,
    #[error("2 BadVersion")]
    BadVersion,
    /// The bytes end inside a field.
    #[error("3 Short")]
    Short,
    /// The field that begins at this offset has a value that it may not have.
    #[error("4 BadField at {0}")]
    BadField(u64),
    /// A byte follows the last field.
    #[error("5 Trailing")]
    Trailing,
    /// The source failed before the end of the image was known.
    #[error("6 Read")]
    Read,
    #[error("7 NoMemory")]
    NoMemory,
}

impl From<NoMemory> for LoadFault {
    ghost from_gives = { λ _ e. e ≡ load.NoMemory };

    fn from(_error: NoMemory) -> LoadFault {
        LoadFault::NoMemory
    }
}

impl From<AllocError> for LoadFault {
    ghost from_gives = { λ _ e. e ≡ load.NoMemory };

    fn from(_error: AllocError) -> LoadFault {
        LoadFault::NoMemory
    }
}

impl<T: Drop> From<AllocFailed<T>> for LoadFault {
    ghost from_gives = { λ _ e. e ≡ load.NoMemory };

    fn from(_error: AllocFailed<T>) -> LoadFault {
        LoadFault::NoMemory
    }
}
