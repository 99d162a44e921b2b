// The places that a new file takes.
ghost use Rattle.std.specs.Prelude.{◌≡◌, ◌⊎◌, ◌<◌, ◌++◌, [], ◌∷◌, Err, OnOk, IfErr, IfOk, length};
ghost use Rattle.file_edits.specs.Places.{first_places, free_places};

use edit_formats::EditError;
use std::alloc::{AllocError, Allocator};
use vol_format::Format;

// Takes one place more.
fn take<A: Allocator>(places: &mut Vec<u32, A>, place: u32) -> Result<(), AllocError>
    ensures { OnOk result (places.new.items ≡ places.old.items ++ place ∷ []) }
{
    places.push(place)?;
    Ok(())
}

/// The first places, so many, that are available and marked free, in the order of the available places.
///
/// # Errors
/// `VolumeFull` where the volume has fewer; `Memory`.
pub fn first_places<F: Format, A: Allocator>(
    alloc: A,
    format: &F,
    volume: &F::Volume,
    count: usize,
) -> Result<Vec<u32, A>, EditError>
    ensures places { IfOk result (λ places. places.items ≡ first_places (F.directory format.now volume.now) count) }
    ensures count { IfOk result (λ places. length places.items ≡ count) }
    ensures refused { IfErr result (λ error. (error ≡ EditError.VolumeFull) ⊎ (error ≡ EditError.Memory)) }
    ensures full { result ≡ Err EditError.VolumeFull
        → length (free_places (F.directory format.now volume.now)) < count }
{
    let mut places = Vec::new(alloc);
    let mut number = 0;
    while places.len() < count {
        let Some(place) = format.available(volume, number) else {
            return Err(EditError::VolumeFull);
        };
        number += 1;
        if format.is_free(volume, place) {
            take(&mut places, place)?;
        }
    }
    Ok(places)
}
