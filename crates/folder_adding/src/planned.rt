// The plan of a folder.
ghost use Rattle.std.specs.Prelude.{◌≡◌};
ghost use Rattle.folder_adding.specs.declared.planned.PlanError.TheVariants.{Memory as NoMemory};

use crate::item::Item;
use shop_replies::Refusal;
use std::alloc::AllocError;
use thiserror::Error;

/// What is to be done with the entries of a folder whose files are added to a volume.
pub struct Plan {
    /// The paths of the directories that are made, each where none is there.
    pub directories: Vec<Vec<u8>>,
    /// For each directory the number of its entry.
    pub folders: Vec<usize>,
    /// The files that are to be saved.
    pub items: Vec<Item>,
    /// For each item the number of its entry.
    pub files: Vec<usize>,
    /// The numbers of the entries that are passed over with a word.
    pub passed: Vec<usize>,
}

impl Drop for Plan {
    fn drop(self) {
        let Plan {
            directories: _,
            folders: _,
            items: _,
            files: _,
            passed: _,
        } = self;
    }
}

/// Why a folder has no plan.
#[derive(Clone, Copy, Debug, PartialEq, Eq, Error)]
pub enum PlanError {
    /// The first entry that is refused, by its number.
    #[error("entry {entry} of the folder is refused")]
    Refused { entry: usize, refusal: Refusal },
    #[error("out of memory")]
    Memory,
}

impl From<AllocError> for PlanError {
    ghost from_gives = { λ _ e. e ≡ NoMemory };

    fn from(_: AllocError) -> Self {
        PlanError::Memory
    }
}
