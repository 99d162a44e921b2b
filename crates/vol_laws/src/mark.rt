// A mark of a place in the map.

/// A place, and whether it is to be marked free.
#[derive(Clone, Copy)]
pub struct Mark {
    pub place: u32,
    pub free: bool,
}
