// What is known of a volume before it is changed.

/// What is known of whether a volume is accepted, before it is changed.
#[derive(Clone, Copy)]
pub enum Acceptance {
    /// Nothing is known: a check looks for it first.
    Unknown,
    /// An earlier check or change of this device said that the volume is accepted, so its parts are not walked again.
    Known,
}
