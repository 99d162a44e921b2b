// The writes for the moves of a plan.
ghost use Rattle.std.specs.Prelude.{◌≡◌, ◌<◌, [], ◌∷◌, ◌++◌, length, slice_index, All, IfOk, OnOk};
ghost use Rattle.vol_mover.specs.Tasks.{Copy, Pointer, place_of};
ghost use Rattle.vol_mover.specs.Writes.{changes_between, writes_after, writes_of};
ghost use Rattle.vol_layout.specs.Plans.{IsPlan, moved};

use crate::change::{change, release};
use crate::draft::Draft;
use std::alloc::{AllocError, Allocator};
use vol_format::WritableFormat;
use vol_layout::Move;

// The available place of a number.
fn place_at<F: WritableFormat>(format: &F, volume: &F::Volume, number: u32) -> u32
    requires { number < length (F.directory format.now volume.now).available }
    ensures value { result ≡ place_of (F.directory format.now volume.now) number }
    ensures below { result < (F.directory format.now volume.now).places }
{
    format.available(volume, number).unwrap_or(0)
}

// The two writes of a move, in an agenda and in the layout; the number of the place that its part leaves.
fn make<A: Allocator>(draft: &mut Draft<A>, at: &mut [u32], step: Move) -> Result<u32, AllocError>
    requires { step.part < length at.old }
    ensures draft { OnOk result
        (draft.new ≡ record draft.old { tasks = draft.old.tasks ++ Copy step ∷ Pointer step ∷ [] }) }
    ensures at { OnOk result (at.new ≡ moved at.old step) }
    ensures left { IfOk result (λ left. left ≡ slice_index at.old step.part) }
{
    draft.make(step)?;
    let part = step.part as usize;
    let left = at[part];
    at[part] = step.to;
    Ok(left)
}

// The change of the map before a move to the place of number `to`, where the move before left that of number `left`.
fn change_between<F: WritableFormat, A: Allocator>(
    draft: &mut Draft<A>,
    format: &F,
    volume: &F::Volume,
    left: u32,
    to: u32,
) -> Result<(), AllocError>
    requires left { left < length (F.directory format.now volume.now).available }
    requires to { to < length (F.directory format.now volume.now).available }
    requires marks { draft.old.marks ≡ [] }
    ensures { OnOk result (draft.new ≡ record draft.old {
      tasks = draft.old.tasks ++ changes_between (F.directory format.now volume.now) left to;
    }) }
{
    if to == left {
        return Ok(());
    }
    let lost = [place_at(format, volume, left)];
    change(draft, format, volume, place_at(format, volume, to), &lost)
}

// The writes of the moves after the first.
fn make_later<F: WritableFormat, A: Allocator>(
    draft: &mut Draft<A>,
    format: &F,
    volume: &F::Volume,
    mut left: u32,
    at: &mut [u32],
    moves: &[Move],
) -> Result<(), AllocError>
    requires left { left < length (F.directory format.now volume.now).available }
    requires at { All (λ number. number < length (F.directory format.now volume.now).available) at.old }
    requires moves { IsPlan at.old (length (F.directory format.now volume.now).available) moves.now }
    requires marks { draft.old.marks ≡ [] }
    ensures { OnOk result (draft.new ≡ record draft.old {
      tasks = draft.old.tasks ++ writes_after (F.directory format.now volume.now) left at.old moves.now;
    }) }
{
    for step in moves {
        change_between(draft, format, volume, left, step.to)?;
        left = make(draft, at, *step)?;
    }
    let lost = [place_at(format, volume, left)];
    release(draft, format, volume, &lost, None)
}

// The writes of all moves.
fn make_all<F: WritableFormat, A: Allocator>(
    draft: &mut Draft<A>,
    format: &F,
    volume: &F::Volume,
    at: &mut [u32],
    lost: &[u32],
    moves: &[Move],
) -> Result<(), AllocError>
    requires at { All (λ number. number < length (F.directory format.now volume.now).available) at.old }
    requires lost { All (λ place. place < (F.directory format.now volume.now).places) lost.now }
    requires moves { IsPlan at.old (length (F.directory format.now volume.now).available) moves.now }
    requires marks { draft.old.marks ≡ [] }
    ensures { OnOk result (draft.new ≡ record draft.old {
      tasks = draft.old.tasks ++ writes_of (F.directory format.now volume.now) at.old lost.now moves.now;
    }) }
{
    if moves.is_empty() {
        return release(draft, format, volume, lost, None);
    }
    let first = moves[0];
    change(
        draft,
        format,
        volume,
        place_at(format, volume, first.to),
        lost,
    )?;
    let left = make(draft, at, first)?;
    make_later(draft, format, volume, left, at, &moves[1..])
}

/// The writes of a plan's moves.
pub fn draft_of<F: WritableFormat, A: Allocator + Copy>(
    alloc: A,
    format: &F,
    volume: &F::Volume,
    at: &[u32],
    lost: &[u32],
    moves: &[Move],
) -> Result<Draft<A>, AllocError>
    requires at { All (λ number. number < length (F.directory format.now volume.now).available) at.now }
    requires lost { All (λ place. place < (F.directory format.now volume.now).places) lost.now }
    requires moves { IsPlan at.now (length (F.directory format.now volume.now).available) moves.now }
    ensures { IfOk result (λ draft. draft ≡ record {
      tasks = writes_of (F.directory format.now volume.now) at.now lost.now moves.now;
      marks = [];
    }) }
{
    let mut at = Vec::from_slice(alloc, at)?;
    let mut draft = Draft::new(alloc);
    make_all(&mut draft, format, volume, at.as_mut_slice(), lost, moves)?;
    Ok(draft)
}
