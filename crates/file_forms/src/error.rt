// Why a file is not shown in a form, and why none is taken from one.
ghost use Rattle.std.specs.Prelude.{◌≡◌};
ghost use Rattle.file_forms.specs.Errors.{form_error_of_integer, form_error_of_list, form_error_of_print};
ghost use Rattle.file_forms.specs.Errors.{taking_error_of_text, taking_error_of_tokens};
ghost use Rattle.file_forms.specs.declared.error.FormError.TheVariants as forms;
ghost use Rattle.file_forms.specs.declared.error.TakingError.TheVariants as takings;

use apple_single::PrintError;
use apple_text::TakeError;
use applesoft::{ListError, TokenError};
use std::alloc::{AllocError, AllocFailed};
use thiserror::Error;

/// Why a file is not shown in a form.
#[derive(Clone, Copy, Debug, Error)]
pub enum FormError {
    #[error("the file is not of this form")]
    Form,
    #[error("memory ran out")]
    Memory,
}

/// Why no file is taken from what is given.
#[derive(Clone, Copy, Debug, PartialEq, Eq, Error)]
pub enum TakingError {
    /// The first line of a text, counted from 1, that can't be taken.
    #[error("line {0} can't be taken")]
    BadLine(u64),
    /// It is no AppleSingle file whose data fork can be read, or one with a resource fork.
    #[error("it is no AppleSingle file that can be taken")]
    Single,
    #[error("memory ran out")]
    Memory,
}

impl From<AllocError> for FormError {
    ghost from_gives = { λ _ e. e ≡ forms.Memory };

    fn from(_: AllocError) -> Self {
        FormError::Memory
    }
}

impl From<ListError> for FormError {
    ghost from_gives = { λ error e. e ≡ form_error_of_list error };

    fn from(error: ListError) -> Self {
        match error {
            ListError::Form => FormError::Form,
            ListError::Memory => FormError::Memory,
        }
    }
}

impl From<integer_basic::ListError> for FormError {
    ghost from_gives = { λ error e. e ≡ form_error_of_integer error };

    fn from(error: integer_basic::ListError) -> Self {
        match error {
            integer_basic::ListError::Form => FormError::Form,
            integer_basic::ListError::Memory => FormError::Memory,
        }
    }
}

impl From<PrintError> for FormError {
    ghost from_gives = { λ error e. e ≡ form_error_of_print error };

    fn from(error: PrintError) -> Self {
        match error {
            PrintError::TooLong => FormError::Form,
            PrintError::Memory => FormError::Memory,
        }
    }
}

impl From<AllocError> for TakingError {
    ghost from_gives = { λ _ e. e ≡ takings.Memory };

    fn from(_: AllocError) -> Self {
        TakingError::Memory
    }
}

impl<T: Drop> From<AllocFailed<T>> for TakingError {
    ghost from_gives = { λ _ e. e ≡ takings.Memory };

    fn from(_: AllocFailed<T>) -> Self {
        TakingError::Memory
    }
}

impl From<TakeError> for TakingError {
    ghost from_gives = { λ error e. e ≡ taking_error_of_text error };

    fn from(error: TakeError) -> Self {
        match error {
            TakeError::BadLine(line) => TakingError::BadLine(line),
            TakeError::Memory => TakingError::Memory,
        }
    }
}

impl From<TokenError> for TakingError {
    ghost from_gives = { λ error e. e ≡ taking_error_of_tokens error };

    fn from(error: TokenError) -> Self {
        match error {
            TokenError::BadLine(line) => TakingError::BadLine(line),
            TokenError::Memory => TakingError::Memory,
        }
    }
}
