// What pointers name, and where they stand.
use a2_device::Part;

/// What a pointer names.
#[derive(Clone, Copy, PartialEq, Eq)]
pub enum Link {
    /// Nothing.
    Null,
    /// No place of the volume.
    Wild,
    /// The files of a directory; it has no parts.
    Directory,
    /// The parts of a file of a kind that is not read.
    OtherType,
    /// A part.
    To(Part),
}

/// Where a pointer stands: in the entry of a slot of a directory unit, or as the pointer of a number in the unit of a
/// part.
#[derive(Clone, Copy, PartialEq, Eq)]
pub struct Holder {
    pub entry: bool,
    pub place: u32,
    pub slot: u32,
}
