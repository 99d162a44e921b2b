// The line of an output that can't be written.
ghost use Rattle.std.specs.Prelude.{◌↔◌, IsTrue};
ghost use Rattle.shop_jobs.specs.Job.{ask_view, job_view, target_view};
ghost use Rattle.shop_outputs.specs.Endings.{IsOutputTold, LacksOutput};
ghost use Rattle.shop_outputs.specs.Told.{IsMadeNew, IsTellingAsk, TellsOfOutput};

use crate::ending::{Ending, Unwritten};
use shop_jobs::{Ask, Change, Job, Target, VolumeAsk};
use shop_replies::{FAILED, written};
use std::io::Write;

const LINE: &[u8] = b"FAILED Output\n";

// Whether a new file or a new folder is made.
fn is_made_new(output: &Target) -> bool
    ensures { IsTrue result ↔ IsMadeNew (target_view output.now) }
{
    matches!(output, Target::NewFile(_) | Target::Folder(_))
}

// Whether it is told by what is asked, wherever the image goes.
fn is_telling(ask: &Ask) -> bool
    ensures { IsTrue result ↔ IsTellingAsk (ask_view ask.now) }
{
    matches!(
        ask,
        Ask::Volume(
            VolumeAsk::Add(_) | VolumeAsk::Change(Change::Reclaim | Change::MakeDirectory { .. })
        )
    )
}

/// Whether a job tells on a line that its output file or its folder could not be written. The others are silent then.
pub fn tells_of_output(job: &Job) -> bool
    ensures { IsTrue result ↔ TellsOfOutput (job_view job.now) }
{
    is_made_new(&job.output) || is_telling(&job.ask)
}

// Whether that is how a job ended, before anything was told.
fn lacks_output(ending: Ending) -> bool
    ensures { IsTrue result ↔ LacksOutput ending }
{
    match ending.unwritten {
        Some(Unwritten::Image | Unwritten::Folder) => true,
        _ => false,
    }
}

/// Tells on a line that the output file or the new folder could not be written, where a job ended so before anything
/// was told; of another ending nothing more is told.
pub fn tell_output<T: Write>(ending: Ending, text: &mut T) -> Ending
    ensures { IsOutputTold ending result (T.contents text.old) (T.contents text.new) }
{
    if lacks_output(ending) {
        Ending {
            status: written(LINE, FAILED, text),
            unwritten: ending.unwritten,
        }
    } else {
        ending
    }
}
