// What is told of entries that are passed over.
ghost use Rattle.std.specs.Prelude.{◌≡◌, ◌++◌, OnOk, map, string_bytes};
ghost use Rattle.folder_adding.specs.HostEntries.{entry_view};
ghost use Rattle.folder_adding.specs.AddedText.{passed_line, passed_lines};

use crate::host_entry::HostEntry;
use shown_text::escaped;
use std::alloc::{AllocError, Global};

// Adds the line of the entry that has this number.
fn push_line(
    alloc: Global,
    text: &mut String,
    entries: &[HostEntry],
    number: usize,
) -> Result<(), AllocError>
    ensures { OnOk result (string_bytes text.new
        ≡ string_bytes text.old ++ passed_line (map entry_view entries.now) number) }
{
    match entries.get(number) {
        Some(entry) => {
            let path = escaped(alloc, entry.path.as_str())?;
            writeln!(text, "PASSED {path}")
        }
        None => Ok(()),
    }
}

/// Adds a line for each of the entries that have these numbers.
pub(crate) fn push_passed(
    alloc: Global,
    text: &mut String,
    entries: &[HostEntry],
    passed: &[usize],
) -> Result<(), AllocError>
    ensures { OnOk result (string_bytes text.new
        ≡ string_bytes text.old ++ passed_lines (map entry_view entries.now) passed.now) }
{
    for number in passed {
        push_line(alloc, text, entries, *number)?;
    }
    Ok(())
}
