// The place that the block of a new directory gets.
ghost use Rattle.std.specs.Prelude.{◌≡◌, ◌⊎◌, ◌<◌, [], ◌∷◌, Err, IfErr, IfOk};
ghost use Rattle.file_edits.specs.Places.{first_places, free_places};

use crate::first_places;
use edit_formats::EditError;
use std::alloc::Allocator;
use vol_format::Format;

/// The first place that is available and marked free.
///
/// # Errors
/// `VolumeFull` where there is none; `Memory`.
pub(crate) fn first_place<F: Format, A: Allocator>(
    alloc: A,
    format: &F,
    volume: &F::Volume,
) -> Result<u32, EditError>
    ensures first { IfOk result (λ place. first_places (F.directory format.now volume.now) 1 ≡ place ∷ []) }
    ensures inside { IfOk result (λ place. place < (F.directory format.now volume.now).places) }
    ensures refused { IfErr result (λ error. (error ≡ EditError.VolumeFull) ⊎ (error ≡ EditError.Memory)) }
    ensures full { result ≡ Err EditError.VolumeFull → free_places (F.directory format.now volume.now) ≡ [] }
{
    match first_places(alloc, format, volume, 1) {
        Err(error) => Err(error),
        Ok(places) => {
            let place = places[0];
            Ok(place)
        }
    }
}
