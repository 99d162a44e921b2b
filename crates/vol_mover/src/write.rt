// One write of a mover.
use vol_layout::Move;

/// One write of a mover.
#[derive(Clone, Copy, PartialEq, Eq)]
pub enum Write {
    /// Of the map's unit at a place.
    Map(u32),
    /// Of the unit of a part to the place to which it goes.
    Copy(Move),
    /// Of the pointer to a part, to name that place.
    Pointer(Move),
}
