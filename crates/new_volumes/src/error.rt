// Why no volume is made.
ghost use Rattle.std.specs.Prelude.{◌≡◌};
ghost use Rattle.new_volumes.specs.Plain.{error_of};
ghost use Rattle.new_volumes.specs.declared.error.NewVolumeError.TheVariants.{Memory};

use a2_image::ImageError;
use std::alloc::AllocError;
use thiserror::Error;

/// Why no image of an empty volume is made. Of several causes the first in this order is told.
#[derive(Clone, Copy, Debug, PartialEq, Eq, Error)]
pub enum NewVolumeError {
    #[error("no image in this order has so many blocks")]
    Length,
    #[error("the image that is copied from has the wrong length for its order")]
    BootLength,
    #[error("the image that is copied from lacks a sector")]
    NoSector,
    #[error("memory ran out")]
    Memory,
    #[error("what was made is no empty volume")]
    Refused,
}

impl From<AllocError> for NewVolumeError {
    ghost from_gives = { λ _ e. e ≡ Memory };

    fn from(_: AllocError) -> NewVolumeError {
        NewVolumeError::Memory
    }
}

// What is told of an image that is not put into another order.
impl From<ImageError> for NewVolumeError {
    ghost from_gives = { λ error e. e ≡ error_of error };

    fn from(error: ImageError) -> NewVolumeError {
        match error {
            ImageError::Memory => NewVolumeError::Memory,
            ImageError::Length | ImageError::Number | ImageError::NoSector => {
                NewVolumeError::Refused
            }
        }
    }
}
