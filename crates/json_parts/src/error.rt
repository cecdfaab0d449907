//! Why a part isn't read.
ghost use Rattle.std.specs.Prelude.{◌≡◌};
ghost use Rattle.json_parts.specs.declared.error.PartError.TheVariants.{NoMemory};

use std::alloc::AllocError;

/// Why a part isn't read.
#[derive(Clone, Copy)]
pub enum PartError {
    /// There is no memory for it.
    NoMemory,
    /// The value isn't such a part: a key is missing, unknown or of another type, or a text is
    /// another one.
    NoPart,
}

impl From<AllocError> for PartError {
    ghost from_gives = { λ _ r. r ≡ NoMemory };

    fn from(_error: AllocError) -> PartError {
        PartError::NoMemory
    }
}
