// Which files and folders of a folder are added to a volume, and as what.
ghost use Rattle.std.specs.Prelude.{◌≡◌, IfErr, IfOk, OnOk, map};
ghost use Rattle.std.specs.Option.{option_copied};
ghost use Rattle.folder_adding.specs.HostEntries.{entry_view};
ghost use Rattle.folder_adding.specs.Plan.{HasNoPlan, IsPlan, plan_view};
ghost use Rattle.folder_adding.specs.Weighing.{step_view, with_step};

use crate::host_entry::HostEntry;
use crate::planned::{Plan, PlanError};
use crate::seconds::folder_files;
use crate::step::{Destination, Step, Weighed};
use crate::weighing::weigh;
use shop_jobs::FileSystem;
use std::alloc::{AllocError, Global};

// Adds the step of the entry that has this number.
fn push_step(plan: &mut Plan, number: usize, step: Step) -> Result<(), AllocError>
    ensures { OnOk result (plan_view plan.new ≡ with_step number (plan_view plan.old) (step_view step)) }
{
    match step {
        Step::Adds(item) => {
            plan.items.push(item)?;
            plan.files.push(number)?;
        }
        Step::Makes(path) => {
            plan.directories.push(path)?;
            plan.folders.push(number)?;
        }
        Step::Passes => plan.passed.push(number)?,
    }
    Ok(())
}

/// The plan of a folder whose files are added to a volume of this file system, in ProDOS into this directory. All of
/// its entries are weighed, in order.
///
/// # Errors
/// The first entry that is refused, and why.
pub fn plan(
    alloc: Global,
    file_system: FileSystem,
    into: Option<&str>,
    entries: &[HostEntry],
) -> Result<Plan, PlanError>
    ensures planned { IfOk result (λ plan. IsPlan (record {
      file_system = file_system;
      into = option_copied into.entry;
      entries = map entry_view entries.now;
    }) (plan_view plan)) }
    ensures refused { IfErr result (HasNoPlan (record {
      file_system = file_system;
      into = option_copied into.entry;
      entries = map entry_view entries.now;
    })) }
{
    let files = folder_files(alloc, entries)?;
    let destination = Destination { file_system, into };
    let mut plan = Plan {
        directories: Vec::new(alloc),
        folders: Vec::new(alloc),
        items: Vec::new(alloc),
        files: Vec::new(alloc),
        passed: Vec::new(alloc),
    };
    for (number, entry) in entries.iter().enumerate() {
        match weigh(alloc, &destination, &files, entry)? {
            Weighed::Step(step) => push_step(&mut plan, number, step)?,
            Weighed::Refused(refusal) => {
                return Err(PlanError::Refused {
                    entry: number,
                    refusal,
                });
            }
        }
    }
    Ok(plan)
}
