// Why a file is not told of.
ghost use Rattle.std.specs.Prelude.{◌≡◌};
ghost use Rattle.image_survey.specs.declared.error.SurveyError.TheVariants.{Memory as NoMemory};

use std::alloc::{AllocError, AllocFailed};
use thiserror::Error;

/// Why a file is not told of.
#[derive(Clone, Copy, Debug, Error)]
pub enum SurveyError {
    #[error("memory ran out")]
    Memory,
    #[error("the text could not be written")]
    Output,
}

impl From<AllocError> for SurveyError {
    ghost from_gives = { λ _ e. e ≡ NoMemory };

    fn from(_: AllocError) -> Self {
        SurveyError::Memory
    }
}

impl<T: Drop> From<AllocFailed<T>> for SurveyError {
    ghost from_gives = { λ _ e. e ≡ NoMemory };

    fn from(_: AllocFailed<T>) -> Self {
        SurveyError::Memory
    }
}
