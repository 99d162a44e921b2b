// What bytes a text may be taken for, and why it can't be.
ghost use Rattle.std.specs.Prelude.{◌≡◌};
ghost use Rattle.apple_text.specs.declared.form.TakeError.TheVariants.{Memory};

use std::alloc::{AllocError, AllocFailed};
use thiserror::Error;

/// What the highest bit of each byte is.
#[derive(Clone, Copy, Debug, PartialEq, Eq)]
pub enum HighBit {
    /// $80 is added to each code, as in DOS 3.3.
    On,
    /// A byte is its code, as in ProDOS.
    Off,
}

/// What bytes a text may be taken for.
#[derive(Clone, Copy)]
pub struct TextForm {
    pub high: HighBit,
    /// Whether a byte may be $00, which ends a text of DOS 3.3.
    pub zeros: bool,
}

/// Why no bytes are taken from a text.
#[derive(Clone, Copy, Debug, Error)]
pub enum TakeError {
    /// The first line that no bytes show, counted from 1.
    #[error("line {0} can't be taken")]
    BadLine(u64),
    #[error("memory ran out")]
    Memory,
}

impl From<AllocError> for TakeError {
    ghost from_gives = { λ _ e. e ≡ Memory };

    fn from(_: AllocError) -> Self {
        TakeError::Memory
    }
}

impl<T: Drop> From<AllocFailed<T>> for TakeError {
    ghost from_gives = { λ _ e. e ≡ Memory };

    fn from(_: AllocFailed<T>) -> Self {
        TakeError::Memory
    }
}
