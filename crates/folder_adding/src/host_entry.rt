// What stands in a folder of the host.
ghost use Rattle.std.specs.Prelude.{◌≡◌, codes, nat_eq};
ghost use Rattle.std.specs.List.{starts_with};

/// What an entry of a folder is.
#[derive(Clone, Copy, PartialEq, Eq, PartialOrd, Ord)]
pub enum HostKind {
    File,
    Folder,
    /// A link, a pipe, a device, or what has a name that is no text.
    Other,
}

/// An entry of a folder, or of a folder within it.
#[derive(PartialEq, Eq, PartialOrd, Ord, Drop)]
pub struct HostEntry {
    /// Its path from the folder on, with `/` between its parts.
    pub path: String,
    pub kind: HostKind,
}

/// Whether a name in a folder is passed over without a word, with all that is in it if it is a folder: it begins with a
/// period.
pub fn is_hidden(name: &str) -> bool
    ensures { result ≡ starts_with nat_eq name.now (codes ".") }
{
    name.as_bytes().starts_with(b".")
}
