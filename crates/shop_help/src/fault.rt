//! Why words are no job.
ghost use Rattle.std.specs.Prelude.{◌≡◌};
ghost use Rattle.shop_help.specs.declared.fault.WordsFault.TheVariants.{Memory};

use std::alloc::AllocError;
use thiserror::Error;

/// Why the words are no job.
#[derive(Debug, Drop, Error)]
pub enum WordsFault {
    /// The words ask for help: its text, of whole lines.
    #[error("{0}")]
    Help(String),
    /// The words are those of no command: what is wrong with them and the usage, of whole lines.
    #[error("{0}")]
    Refused(String),
    /// Memory ran out.
    #[error("out of memory")]
    Memory,
}

impl From<AllocError> for WordsFault {
    ghost from_gives = { λ _ e. e ≡ Memory };

    fn from(_error: AllocError) -> WordsFault {
        WordsFault::Memory
    }
}
