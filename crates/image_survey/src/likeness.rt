// What images have alike.

/// What two images have alike.
#[derive(Clone, Copy)]
pub enum Likeness {
    /// The files of their volumes: they are the same.
    Files,
    /// Each sector or block: they are twins.
    Disk,
}
