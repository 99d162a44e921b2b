// Why a volume is not opened.
ghost use Rattle.shop_volumes.specs.Unopened.{TellsOpening};

use shop_replies::{Failure, Refusal, Reply};
use std::alloc::Global;
use vol_mover::OpenError;

/// The reply to a volume that is not opened.
pub fn unopened_reply(alloc: Global, error: &OpenError) -> Reply
    ensures { TellsOpening error.now result }
{
    match error {
        OpenError::Check(_) => Reply::refused(Refusal::Check),
        OpenError::Lost(count) => match format!(in alloc; "REFUSED Lost {count}\n") {
            Ok(text) => Reply::unopened(text),
            Err(_) => Reply::failed(Failure::Memory),
        },
        OpenError::NoFreePlace => Reply::refused(Refusal::NoFreePlace),
        OpenError::Device => Reply::failed(Failure::Device),
        OpenError::Memory => Reply::failed(Failure::Memory),
    }
}
