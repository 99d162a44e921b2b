// A part that has no place yet.
use a2_device::PartKind;

/// A part of a new file: its kind, and its number among the parts of that kind.
#[derive(Clone, Copy, PartialEq, Eq)]
pub struct NewPart {
    pub kind: PartKind,
    pub number: u32,
}
