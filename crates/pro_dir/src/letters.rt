// How the letters of a path are taken.
ghost use Rattle.std.specs.Prelude.{◌≡◌};
ghost use Rattle.pro_dir.specs.Letters.{letter};

/// How the letters of a path that is given are taken.
#[derive(Clone, Copy)]
pub(crate) enum Letters {
    /// As capitals.
    AsCapitals,
    /// As they are.
    AsTheyAre,
}

impl Letters {
    /// A byte of the path, as it is taken.
    pub(crate) fn take(self, byte: u8) -> u8
        ensures { result ≡ letter self byte }
    {
        match self {
            Letters::AsCapitals => byte.to_ascii_uppercase(),
            Letters::AsTheyAre => byte,
        }
    }
}
