// Why an image is not taken, or a sector not read or written.
ghost use Rattle.std.specs.Prelude.{◌≡◌};
ghost use Rattle.a2_image.specs.declared.error.ImageError.TheVariants.{Memory};

use std::alloc::AllocError;
use thiserror::Error;

/// Why an image is refused, or a sector of it.
#[derive(Clone, Copy, Debug, PartialEq, Eq, Error)]
pub enum ImageError {
    #[error("the image has the wrong length for its order")]
    Length,
    #[error("memory ran out")]
    Memory,
    #[error("the disk has no such track or sector")]
    Number,
    #[error("the track has no such sector")]
    NoSector,
}

impl From<AllocError> for ImageError {
    ghost from_gives = { λ _ e. e ≡ Memory };

    fn from(_: AllocError) -> ImageError {
        ImageError::Memory
    }
}
