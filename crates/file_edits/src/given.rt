// A new file as its owner gives it.
use edit_formats::Attributes;

/// A new file as its owner gives it: its path, what is said of it, and its units one after the other, each as long as a
/// unit of the volume. `stored` says of each whether it is stored or a hole, of which `units` is not read.
#[derive(Clone, Copy)]
pub struct NewFile<'a> {
    pub path: &'a [u8],
    pub attributes: &'a Attributes,
    pub stored: &'a [bool],
    pub units: &'a [u8],
}
