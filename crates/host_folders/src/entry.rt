// An entry of a volume, as far as its name on the host says it.
use vol_layout::PlaceForm;

/// Whether the type and the aux type of a file stand in its name.
#[derive(Clone, Copy, PartialEq, Eq)]
pub enum Naming {
    /// They do: `HELLO#060300`.
    Naps,
    /// They do not: `HELLO`.
    Plain,
}

/// An entry of a volume.
#[derive(Clone, Copy)]
pub struct Stored<'a> {
    /// That of a volume of DOS 3.3 (`Sector`) or of ProDOS (`Block`).
    pub form: PlaceForm,
    /// Its name as it is stored; in DOS 3.3 the bytes $A0 at its end fill it up and don't count.
    pub name: &'a [u8],
    /// The number of its kind or type, without the lock.
    pub kind: u8,
    /// The aux type of ProDOS, or the address of a file of kind $04 of DOS 3.3; of other kinds it is not looked at.
    pub aux: u16,
    pub directory: bool,
    /// Whether its readable form stands there in its place, as a text.
    pub text: bool,
}
