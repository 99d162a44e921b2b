//! Why the words of a command are no job, where clap takes them.
ghost use Rattle.std.specs.Prelude.{◌≡◌};
ghost use Rattle.shop_words.specs.declared.misfit.Misfit.TheVariants.{Memory};

use std::alloc::AllocError;

/// Why words that clap takes are no job.
#[derive(Clone, Copy)]
pub enum Misfit {
    /// A parameter that must be said is left out.
    Missing { name: &'static str },
    /// An option does not take its value.
    Value { name: &'static str },
    /// The name of a file is to be the stored one, and is not in hexadecimal digits.
    NoStoredName,
    /// Places are to be told in another form than JSON.
    PlacesWithoutJson,
    /// A file is to be read whole and in a form.
    WholeAndForm,
    /// The highest bit is said of what is no text.
    HighWithoutText,
    /// A program whose listing is given is to be loaded elsewhere than it is made for.
    LoadedElsewhere,
    /// Both images are to be read from standard input.
    TwoInputs,
    /// This is said of a volume of ProDOS alone.
    OfProdos { name: &'static str },
    /// The system is to be copied to a disk without one.
    BootOfDataDisk,
    /// The image is to go to a file and to be changed in place.
    TwoTargets,
    /// The words do not say where the image goes.
    NoTarget,
    /// A new volume has no image that says how it is read.
    AutoOfNewVolume,
    /// Memory ran out.
    Memory,
}

impl From<AllocError> for Misfit {
    ghost from_gives = { λ _ e. e ≡ Memory };

    fn from(_error: AllocError) -> Self {
        Misfit::Memory
    }
}
