// What waits to be listed.

/// The slots of a directory's block whose entries wait to be listed: those from one on.
#[derive(Clone, Copy)]
pub struct Waiting {
    pub directory: u16,
    pub place: u16,
    pub slot: u8,
}
