// Why a file is not saved as it is given.
use std::alloc::AllocError;
use thiserror::Error;

/// Why a file is not saved as it is given.
#[derive(Clone, Copy, Debug, Error)]
pub enum GivenError {
    /// The file is longer than the two bytes of its head can say.
    #[error("the file is longer than its head can say")]
    TooLong,
    #[error("memory ran out")]
    Memory,
}

impl From<AllocError> for GivenError {
    ghost use Rattle.std.specs.Prelude.{◌≡◌};
    ghost use Rattle.shop_changes.specs.declared.given_error.GivenError.TheVariants.{Memory};

    ghost from_gives = { λ _ e. e ≡ Memory };

    fn from(_: AllocError) -> Self {
        GivenError::Memory
    }
}
