// What is found of the bytes of a file.
ghost use Rattle.std.specs.Prelude.{◌≡◌, option_map};
ghost use Rattle.image_survey.specs.Told.{best_in};

use crate::content::Content;
use crate::facts::VolumeFacts;
use a2_device::Order;
use shop_jobs::FileSystem;

/// The best way to read an image, and its volume.
#[derive(Drop)]
pub struct BestReading {
    pub file_system: FileSystem,
    pub order: Order,
    pub facts: VolumeFacts,
    /// The digest of the disk, where no sector and no block of it is missing.
    pub disk: Option<[u8; 32]>,
}

/// What is found of an image.
#[derive(Drop)]
pub enum ImageVerdict {
    /// One way to read it is best.
    Best(BestReading),
    /// Some volume can be read, and no way is best; or the header of a container says another order.
    Ambiguous,
    /// No volume can be read.
    NoVolume,
}

/// A file with an image.
#[derive(Drop)]
pub struct ImageFile {
    /// The SHA-256 of all bytes of the file.
    pub sha256: [u8; 32],
    /// Whether the file is a container, so that the image is its payload.
    pub container: bool,
    pub verdict: ImageVerdict,
}

/// What is found of a file.
#[derive(Drop)]
pub enum Surveyed {
    Image(ImageFile),
    /// It is no image.
    Other,
    /// It can't be read.
    Unread,
}

impl Surveyed {
    /// The best way to read the image in the file, if there is one.
    pub(crate) fn best(&self) -> Option<&BestReading>
        ensures { best_in self.now ≡ option_map (λ best. best.now) result }
    {
        match self {
            Surveyed::Image(
                ImageFile {
                    verdict: ImageVerdict::Best(best),
                    ..
                },
            ) => Some(best),
            _ => None,
        }
    }
}
