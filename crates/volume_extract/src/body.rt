// What is put into the folder of an entry.
ghost use Rattle.std.specs.Prelude.{◌≡◌, ◌≤◌, ◌^◌, MatchOption};
ghost use Rattle.volume_extract.specs.ExtractText.{outcome_of};
ghost use Rattle.volume_extract.specs.Items.{bytes_found};
ghost use Rattle.volume_extract.specs.Looked.{body_view};

use crate::kept::Outcome;

/// What is put into the folder.
pub enum Body {
    Folder,
    /// A file of these bytes.
    File(Vec<u8>),
    /// A file of these bytes, and beside it its readable form.
    Both(Vec<u8>, Vec<u8>),
    /// A readable form, in the place of its file.
    Text(Vec<u8>),
    /// Nothing, since it can't be read.
    Unreadable,
}

impl Drop for Body {
    fn drop(self) {
        match self {
            Body::Folder => {}
            Body::File(_) => {}
            Body::Both(_, _) => {}
            Body::Text(_) => {}
            Body::Unreadable => {}
        }
    }
}

impl Body {
    /// How many bytes the files get; `None` where that is no number of 64 bits.
    pub fn bytes(&self) -> Option<u64>
        ensures { MatchOption result (2 ^ 64 ≤ bytes_found (body_view self.now))
            (λ bytes. bytes ≡ bytes_found (body_view self.now)) }
    {
        match self {
            Body::File(bytes) | Body::Text(bytes) => Some(bytes.len() as u64),
            Body::Both(bytes, text) => (bytes.len() as u64).checked_add(text.len() as u64),
            Body::Folder | Body::Unreadable => Some(0),
        }
    }

    /// What is told of it.
    pub fn outcome(&self) -> Outcome
        ensures { result ≡ outcome_of (body_view self.now) }
    {
        match self {
            Body::Folder => Outcome::Folder,
            Body::File(bytes) => Outcome::File(bytes.len() as u64),
            Body::Both(bytes, text) => Outcome::Both(bytes.len() as u64, text.len() as u64),
            Body::Text(text) => Outcome::Text(text.len() as u64),
            Body::Unreadable => Outcome::Unreadable,
        }
    }
}
