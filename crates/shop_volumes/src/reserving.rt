// The places that words reserve on a volume.
ghost use Rattle.std.specs.Prelude.{◌≡◌, IfErr, IfOk, option_map};
ghost use Rattle.vol_layout.specs.declared.reserve_error.ReserveError.TheVariants.{Syntax};
ghost use Rattle.shop_volumes.specs.Reserving.{NamesPlaces, ReservesNamed, reply_to_reserve};

use shop_replies::{Failure, Refusal, Reply};
use std::alloc::Global;
use vol_layout::{PlaceForm, ReserveError, Reserved};

/// The reply to a text of places to reserve that is not taken.
pub fn reserve_reply(error: ReserveError) -> Reply
    ensures { result ≡ reply_to_reserve error }
{
    match error {
        ReserveError::Syntax => Reply::refused(Refusal::Reserve),
        ReserveError::Memory => Reply::failed(Failure::Memory),
    }
}

/// The places that the words reserve.
///
/// # Errors
/// `Syntax` where the words are no list of places; `Memory`.
pub fn reserved_by(
    alloc: Global,
    form: PlaceForm,
    reserve: Option<&str>,
) -> Result<Reserved, ReserveError>
    ensures read { IfOk result (ReservesNamed form (option_map (λ s. s.now) reserve.entry)) }
    ensures syntax { IfErr result (λ e. e ≡ Syntax → ¬ NamesPlaces form (option_map (λ s. s.now) reserve.entry)) }
{
    match reserve {
        Some(text) => Reserved::read(alloc, text, form),
        None => Ok(Reserved::none(alloc)),
    }
}
