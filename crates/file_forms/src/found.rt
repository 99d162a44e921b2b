// A file of a volume that was read.
ghost use Rattle.std.specs.Prelude.{◌≡◌, ◌≤◌, length};
ghost use Rattle.file_forms.specs.Found.{before_zero, file_view, text_bytes, zero_at};

use apple_single::FileInfo;
use vol_layout::PlaceForm;

/// A file of a volume that was read.
#[derive(Clone, Copy)]
pub struct FoundFile<'a> {
    /// That of a volume of DOS 3.3 (`Sector`) or of ProDOS (`Block`).
    pub system: PlaceForm,
    /// Its name, in characters of seven bits.
    pub name: &'a [u8],
    /// Its access, type and aux type; of DOS 3.3 those of ProDOS for it.
    pub info: FileInfo,
    /// All bytes of its units.
    pub whole: &'a [u8],
    pub body: &'a [u8],
}

// How many bytes stand before the first $00.
fn zero_at(bytes: &[u8]) -> usize
    ensures value { result ≡ zero_at bytes.now }
    ensures within { result ≤ length bytes.now }
{
    for (index, byte) in bytes.iter().enumerate() {
        if *byte == 0 {
            return index;
        }
    }
    bytes.len()
}

// The bytes before the first $00.
fn before_zero(bytes: &[u8]) -> &[u8]
    ensures value { result.now ≡ before_zero bytes.now }
    ensures within { length result.now ≤ length bytes.now }
{
    &bytes[..zero_at(bytes)]
}

impl<'a> FoundFile<'a> {
    /// The bytes of its text: of ProDOS its body, of DOS 3.3 those before the first $00 of its units.
    pub fn text(&self) -> &'a [u8]
        ensures value { result.now ≡ text_bytes (file_view self.now) }
        ensures within { self.now.system ≡ PlaceForm.Sector → length result.now ≤ length self.now.whole.now }
    {
        match self.system {
            PlaceForm::Sector => before_zero(self.whole),
            PlaceForm::Block => self.body,
        }
    }
}
