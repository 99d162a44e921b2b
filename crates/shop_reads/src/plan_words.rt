// The job that tells in words the fewest moves that bring the files of a volume into order.
ghost use Rattle.std.specs.Prelude.{◌≡◌, ◌<◌, All, IfOk, IsTrue, string_bytes};
ghost use Rattle.a2_device.specs.Device.{OnlyReads};
ghost use Rattle.vol_format.specs.Fits.{Fits};
ghost use Rattle.vol_format.specs.Directory.{entries};
ghost use Rattle.vol_mover.specs.Opening.{IsPlanOf, IsToldIn, told_in};
ghost use Rattle.file_listings.specs.Steps.{plan_words_text};
ghost use Rattle.shop_volumes.specs.TellingFailures.{FailsForLack, tells_device};
ghost use Rattle.shop_reads.specs.PlanWords.{IsPlannedInWords, TellsWords};

use crate::listing::ShownFormat;
use crate::steps::steps_of;
use a2_device::Device;
use file_formats::FileFormat;
use file_listings::{CountText, Step, StepText};
use shop_replies::{Failure, Reply};
use shop_volumes::unopened_reply;
use std::alloc::{AllocError, Global};
use vol_layout::PlaceForm;
use vol_mover::{Opening, Options};

/// A line for each step, and how many there are.
///
/// # Errors
/// Want of memory alone.
pub fn steps_text<F: FileFormat>(
    alloc: Global,
    format: &F,
    volume: &F::Volume,
    form: PlaceForm,
    steps: &[Step],
) -> Result<String, AllocError>
    requires { All (λ step. step.part.file < entries (F.directory format.now volume.now)) steps.now }
    ensures { IfOk result (λ text.
        string_bytes text ≡ plan_words_text form (F.files format.now) (F.directory format.now volume.now) steps.now) }
{
    let mut text = String::new(alloc);
    for step in steps {
        let entry = format.list_entry(alloc, volume, step.part.file)?;
        let line = StepText {
            form,
            path: entry.path.as_bytes(),
            step: *step,
        };
        writeln!(text, "{line}")?;
    }
    let count = CountText(steps.len());
    writeln!(text, "{count}")?;
    Ok(text)
}

/// The reply with the plan of a volume.
pub fn words_reply<F: ShownFormat>(alloc: Global, format: &F, opening: Opening<F::Volume>) -> Reply
    requires told { IsToldIn (F.directory format.now opening.volume) opening }
    requires plan { IsPlanOf opening.layout opening.plan }
    ensures { TellsWords (F.form format.now) (F.files format.now) (F.directory format.now opening.volume)
        (told_in (F.directory format.now opening.volume) opening) opening.plan.moves.items result }
{
    let Ok(steps) = steps_of(alloc, format, &opening) else {
        return Reply::failed(Failure::Memory);
    };
    let Opening { volume, .. } = opening;
    format.plan(alloc, volume, steps)
}

/// The moves of the shortest plan that brings the parts of a volume into order, in words, or why there is none.
pub fn plan_words_reply<D: Device, F: ShownFormat>(
    alloc: Global,
    device: &mut D,
    format: &F,
    reclaim: bool,
) -> Reply
    requires fits { Fits (F.meaning format.now) (D.state device.old) }
    ensures reads { OnlyReads (tells_device result) (D.state device.old) (D.state device.new) }
    ensures told { IsTrue (D.state device.old).honest → FailsForLack (D.state device.old) result
        → IsPlannedInWords (F.form format.now) (F.files format.now) reclaim (F.meaning format.now)
        (D.state device.old) result }
{
    match Opening::read(alloc, device, format, Options { reclaim }) {
        Ok(opening) => words_reply(alloc, format, opening),
        Err(error) => unopened_reply(alloc, &error),
    }
}
