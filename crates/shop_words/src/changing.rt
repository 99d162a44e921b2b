//! The changes that are made by the commands that change a volume or a file of it.
ghost use Rattle.std.specs.Prelude.{option_map};
ghost use Rattle.shop_jobs.specs.Job.{change_view, edit_view};
ghost use Rattle.shop_words.specs.Given.{said_of};
ghost use Rattle.shop_words.specs.Gives.{Gives};
ghost use Rattle.shop_words.specs.Job.{
  directory_made_by,
  edit_by,
  limit_named,
  optimize_by,
  rename_by,
};

use crate::given::Given;
use crate::misfit::Misfit;
use crate::reading::number;
use shop_jobs::{Change, Edit};
use std::alloc::Global;

// After how many writes to stop, where that is said.
fn limit_named(word: Option<&str>) -> Result<Option<u64>, Misfit>
    ensures { Gives (λ l. l) (limit_named (option_map (λ s. s.now) word.entry)) result }
{
    match word {
        Some(digits) => Ok(Some(number("stop-after", digits, u64::MAX)?)),
        None => Ok(None),
    }
}

/// The change that is made by `optimize`.
pub fn optimize_in(given: &Given<'_, '_>) -> Result<Change, Misfit>
    ensures { Gives change_view (optimize_by (said_of given.now)) result }
{
    let stop_after = limit_named(given.said("stop-after"))?;
    Ok(Change::Optimize {
        reclaim: given.has("reclaim"),
        stop_after,
    })
}

/// The change that is made by a command that changes a file so.
pub fn edit_in(alloc: Global, given: &Given<'_, '_>, edit: Edit) -> Result<Change, Misfit>
    ensures { Gives change_view (edit_by (edit_view edit) (said_of given.now)) result }
{
    let name = given.name(alloc)?;
    Ok(Change::Edit { name, edit })
}

/// The change that is made by `rename`.
pub fn rename_in(alloc: Global, given: &Given<'_, '_>) -> Result<Change, Misfit>
    ensures { Gives change_view (rename_by (said_of given.now)) result }
{
    let new = given.needed_text(alloc, "new")?;
    edit_in(alloc, given, Edit::Rename { new })
}

/// The change that is made by `mkdir`.
pub fn mkdir_in(alloc: Global, given: &Given<'_, '_>) -> Result<Change, Misfit>
    ensures { Gives change_view (directory_made_by (said_of given.now)) result }
{
    Ok(Change::MakeDirectory {
        path: given.needed_text(alloc, "name")?,
        date: given.text(alloc, "date")?,
    })
}
