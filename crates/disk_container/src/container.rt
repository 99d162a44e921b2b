// What a container says.
use a2_device::Order;

/// What a container says of the image in it, its payload, and where that stands.
#[derive(Clone, Copy, PartialEq, Eq)]
pub struct Container {
    /// The order of the image.
    pub order: Order,
    /// Whether the image is not to be written.
    pub protected: bool,
    /// The volume number of DOS 3.3, where the header tells one.
    pub volume: Option<u8>,
    /// Where the payload begins in the file.
    pub start: usize,
    /// How many bytes the payload has.
    pub size: usize,
}
