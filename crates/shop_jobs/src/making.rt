// Images that are made, and containers.
use a2_device::Order;

/// What is said of a new volume by its file system.
#[derive(PartialEq, Eq, Drop)]
pub enum NewVolume {
    /// A DOS 3.3 disk.
    Dos {
        /// Whether files may stand on tracks 1 and 2, where other disks have DOS.
        data_disk: bool,
    },
    /// A ProDOS volume.
    Prodos {
        blocks: u16,
        /// The name as it is said, if one is.
        name: Option<String>,
        /// The date and time of its creation, as they are said.
        date: Option<String>,
    },
}

/// How a new volume is made.
#[derive(PartialEq, Eq, Drop)]
pub struct CreateOptions {
    pub volume: NewVolume,
    /// The order of its image.
    pub order: Order,
    /// The volume number of a DOS 3.3 disk, and of tracks that are made.
    pub number: u8,
}

/// How an image is put into a container.
#[derive(PartialEq, Eq, Drop)]
pub struct WrapOptions {
    /// The volume number of DOS 3.3 that the container tells, if it tells one.
    pub volume: Option<u8>,
    /// The comment behind the image; an empty one is none.
    pub comment: String,
    /// Whether the container says that its image is not to be written.
    pub protect: bool,
}
