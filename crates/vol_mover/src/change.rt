// Changes of the map: what a write for each of its units marks.
ghost use Rattle.std.specs.Prelude.{◌≡◌, ◌<◌, [], ◌∷◌, ◌++◌, map, All, OnOk, Some};
ghost use Rattle.vol_mover.specs.Drafts.{turned_to};
ghost use Rattle.vol_mover.specs.Writes.{beside, change, freed, outside, releases};

use crate::draft::Draft;
use std::alloc::{AllocError, Allocator};
use vol_format::WritableFormat;
use vol_laws::Mark;

// Makes the write of one unit whole, if it is not the one at `at`.
fn turn_to<A: Allocator>(draft: &mut Draft<A>, unit: Option<u32>, at: u32) -> Result<(), AllocError>
    ensures { OnOk result (draft.new ≡ turned_to unit at draft.old) }
{
    match unit {
        Some(unit) if unit != at => draft.map(unit),
        _ => Ok(()),
    }
}

/// Marks places free, but for those with marks in the unit `skipped`: one write for each unit.
pub fn release<F: WritableFormat, A: Allocator>(
    draft: &mut Draft<A>,
    format: &F,
    volume: &F::Volume,
    places: &[u32],
    skipped: Option<u32>,
) -> Result<(), AllocError>
    requires places { All (λ place. place < (F.directory format.now volume.now).places) places.now }
    requires marks { draft.old.marks ≡ [] }
    ensures { OnOk result (draft.new ≡ record draft.old {
      tasks = draft.old.tasks ++ releases (F.directory format.now volume.now)
          (outside (F.directory format.now volume.now) skipped places.now);
    }) }
{
    let mut unit = None;
    for place in places {
        let at = format.map_unit(volume, *place);
        if skipped != Some(at) {
            turn_to(draft, unit, at)?;
            draft.mark(Mark {
                place: *place,
                free: true,
            })?;
            unit = Some(at);
        }
    }
    match unit {
        Some(unit) => draft.map(unit),
        None => Ok(()),
    }
}

// Marks the places free that have their marks beside that of one place.
fn release_beside<F: WritableFormat, A: Allocator>(
    draft: &mut Draft<A>,
    format: &F,
    volume: &F::Volume,
    place: u32,
    lost: &[u32],
) -> Result<(), AllocError>
    requires place { place < (F.directory format.now volume.now).places }
    requires lost { All (λ other. other < (F.directory format.now volume.now).places) lost.now }
    ensures { OnOk result (draft.new ≡ record draft.old {
      marks = draft.old.marks ++ map freed (beside (F.directory format.now volume.now) place lost.now);
    }) }
{
    let at = format.map_unit(volume, place);
    for other in lost {
        if *other != place && format.map_unit(volume, *other) == at {
            draft.mark(Mark {
                place: *other,
                free: true,
            })?;
        }
    }
    Ok(())
}

/// Marks a place used and the other lost places free. The write that marks it comes first.
pub fn change<F: WritableFormat, A: Allocator>(
    draft: &mut Draft<A>,
    format: &F,
    volume: &F::Volume,
    place: u32,
    lost: &[u32],
) -> Result<(), AllocError>
    requires place { place < (F.directory format.now volume.now).places }
    requires lost { All (λ other. other < (F.directory format.now volume.now).places) lost.now }
    requires marks { draft.old.marks ≡ [] }
    ensures { OnOk result (draft.new ≡ record draft.old {
      tasks = draft.old.tasks ++ change (F.directory format.now volume.now) place lost.now;
    }) }
{
    let at = format.map_unit(volume, place);
    draft.mark(Mark { place, free: false })?;
    release_beside(draft, format, volume, place, lost)?;
    draft.map(at)?;
    release(draft, format, volume, lost, Some(at))
}
