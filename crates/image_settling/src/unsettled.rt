// Why nothing is found.
ghost use Rattle.std.specs.Prelude.{◌≡◌};
ghost use Rattle.image_settling.specs.declared.unsettled.Unsettled.TheVariants.{
  Memory as OfMemory,
  Refused as IsRefused,
};
ghost use Rattle.shop_replies.specs.declared.refusal.Refusal.TheVariants.{Container as NoContainer};

use disk_container::ContainerFault;
use shop_replies::Refusal;
use std::alloc::AllocError;

/// Why an image does not settle what a job leaves to it.
#[derive(Clone, Copy, PartialEq, Eq)]
pub enum Unsettled {
    /// The image is refused: it is no container, or no way to read it is better than every other, or there is no volume
    /// in it.
    Refused(Refusal),
    /// There was no memory.
    Memory,
}

impl From<ContainerFault> for Unsettled {
    ghost from_gives = { λ fault unsettled. unsettled ≡ IsRefused (NoContainer fault) };

    fn from(fault: ContainerFault) -> Unsettled {
        Unsettled::Refused(Refusal::Container(fault))
    }
}

impl From<AllocError> for Unsettled {
    ghost from_gives = { λ _ unsettled. unsettled ≡ OfMemory };

    fn from(_: AllocError) -> Unsettled {
        Unsettled::Memory
    }
}
