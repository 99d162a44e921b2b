// How words name a place.
ghost use Rattle.std.specs.Prelude.{◌≡◌};
ghost use Rattle.vol_layout.specs.Reserved.{places_named};

/// How words name a place.
#[derive(Clone, Copy)]
pub enum PlaceForm {
    /// By track and sector, as DOS 3.3 counts them: `17/0`.
    Sector,
    /// By block, as ProDOS counts them: `280`.
    Block,
}

impl PlaceForm {
    /// How many places can be named.
    pub(crate) fn places(self) -> usize
        ensures { result ≡ places_named self }
    {
        match self {
            PlaceForm::Sector => 560,
            PlaceForm::Block => 65_536,
        }
    }
}
