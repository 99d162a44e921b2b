// Which files begin with their address.
ghost use Rattle.std.specs.Prelude.{◌≡◌};
ghost use Rattle.file_cmds.specs.Address.{is_binary};

use file_formats::ListEntry;
use vol_layout::PlaceForm;

/// The kind of a binary file of DOS 3.3.
const BINARY: u8 = 0x04;

/// Whether an entry is that of a binary file of DOS 3.3, which begins with its address.
pub fn is_binary(form: PlaceForm, entry: &ListEntry) -> bool
    ensures { result ≡ is_binary form entry.now }
{
    form == PlaceForm::Sector && entry.kind == BINARY
}
