// The steps of a plan.
ghost use Rattle.std.specs.Prelude.{◌≡◌, ◌<◌, length, slice_index, All, Contains, IfOk};
ghost use Rattle.a2_device.specs.declared.part.Part.{Part};
ghost use Rattle.vol_layout.specs.Plans.{IsLegal};
ghost use Rattle.vol_format.specs.Directory.{entries};
ghost use Rattle.vol_mover.specs.Opening.{IsPlanOf, IsToldIn};
ghost use Rattle.shop_reads.specs.Steps.{AreSteps, IsStep};

use a2_device::Part;
use file_listings::Step;
use std::alloc::{AllocError, Global};
use vol_format::Format;
use vol_layout::Move;
use vol_mover::Opening;

// The available place of a number that there is.
fn place_at<F: Format>(format: &F, volume: &F::Volume, number: u32) -> u32
    requires { number < length (F.directory format.now volume.now).available }
    ensures { result ≡ slice_index (F.directory format.now volume.now).available number }
{
    match format.available(volume, number) {
        Some(place) => place,
        None => unreachable!(),
    }
}

// The step of a move that is made in a layout of these parts.
fn step_of<F: Format>(
    format: &F,
    volume: &F::Volume,
    parts: &[Part],
    layout: &[u32],
    next: Move,
) -> Step
    requires parts { length layout.now ≡ length parts.now }
    requires below { All (λ number. number < length (F.directory format.now volume.now).available) layout.now }
    requires legal { IsLegal layout.now (length (F.directory format.now volume.now).available) next }
    ensures { IsStep parts.now (F.directory format.now volume.now).available layout.now next result }
{
    let index = next.part as usize;
    Step {
        part: Part {
            place: place_at(format, volume, layout[index]),
            ..parts[index]
        },
        to: place_at(format, volume, next.to),
    }
}

/// The steps of the plan of a volume, one for each move.
///
/// # Errors
/// Want of memory alone.
pub fn steps_of<F: Format>(
    alloc: Global,
    format: &F,
    opening: &Opening<F::Volume>,
) -> Result<Vec<Step>, AllocError>
    requires told { IsToldIn (F.directory format.now opening.now.volume) opening.now }
    requires plan { IsPlanOf opening.now.layout opening.now.plan }
    ensures steps { IfOk result (λ steps.
        AreSteps opening.now.parts.items (F.directory format.now opening.now.volume).available
        opening.now.layout.at opening.now.plan.moves.items steps.items) }
    ensures files { IfOk result (λ steps.
        All (λ step. step.part.file < entries (F.directory format.now opening.now.volume)) steps.items) }
{
    let parts = opening.parts.as_slice();
    let mut layout = Vec::from_slice(alloc, opening.layout.at())?;
    let mut steps = Vec::new(alloc);
    for next in &opening.plan.moves {
        steps.push(step_of(format, &opening.volume, parts, layout.as_slice(), *next))?;
        layout[next.part as usize] = next.to;
    }
    Ok(steps)
}
