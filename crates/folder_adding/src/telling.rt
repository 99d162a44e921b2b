// What is told of items that were saved.
ghost use Rattle.std.specs.Prelude.{◌≡◌, ◌++◌, IfOk, OnOk, Some, flat_map, map, string_bytes};
ghost use Rattle.folder_adding.specs.AddedText.{added_line, added_text as text_of_added, listed_path, shown_capital};
ghost use Rattle.folder_adding.specs.HostEntries.{entry_view};
ghost use Rattle.folder_adding.specs.Items.{batch_view};

use crate::host_entry::HostEntry;
use crate::item::Batch;
use crate::passing::push_passed;
use file_listings::shown_part;
use row_text::{ShownBytes, shown_byte};
use shop_jobs::FileSystem;
use std::alloc::{AllocError, Global};
use std::fmt;

// The bytes of a path of ProDOS, whose letters are stored as capitals, as they are shown.
#[derive(Clone, Copy)]
struct ShownCapitals<'a>(&'a [u8]);

impl fmt::Display for ShownCapitals<'_> {
    ghost output = { λ p. Some (map shown_capital p.0.now) };

    fn fmt<W: fmt::Write>(&self, f: &mut fmt::Formatter<W>) -> fmt::Result {
        let path = self.0;
        for byte in path {
            write!(f, "{}", char::from(shown_byte(byte.to_ascii_uppercase())))?;
        }
        Ok(())
    }
}

// The path of an item as a listing shows that of its file.
#[derive(Clone, Copy)]
struct ListedPath<'a> {
    file_system: FileSystem,
    path: &'a [u8],
}

impl fmt::Display for ListedPath<'_> {
    ghost output = { λ p. Some (listed_path p.file_system p.path.now) };

    fn fmt<W: fmt::Write>(&self, f: &mut fmt::Formatter<W>) -> fmt::Result {
        match self.file_system {
            FileSystem::Dos => {
                let name = ShownBytes(shown_part(self.path));
                write!(f, "{name}")
            }
            FileSystem::Prodos => {
                let path = ShownCapitals(self.path);
                write!(f, "{path}")
            }
        }
    }
}

// Adds a line for each item to a text.
fn push_added(text: &mut String, batch: &Batch<'_>) -> Result<(), AllocError>
    ensures { OnOk result (string_bytes text.new ≡ string_bytes text.old
        ++ flat_map (added_line batch.now.file_system) (batch_view batch.now).items) }
{
    let file_system = batch.file_system;
    for item in batch.items {
        let path = ListedPath {
            file_system,
            path: item.path.as_slice(),
        };
        writeln!(text, "ADDED {path}")?;
    }
    Ok(())
}

/// A line for each item, with its path as a listing shows that of its file; one for each of the entries of a folder
/// that have these numbers, with its path as words are shown; and last how many items there are.
///
/// # Errors
/// Want of memory alone.
pub fn added_text(
    alloc: Global,
    batch: &Batch<'_>,
    entries: &[HostEntry],
    passed: &[usize],
) -> Result<String, AllocError>
    ensures { IfOk result (λ text. string_bytes text
        ≡ text_of_added (batch_view batch.now) (map entry_view entries.now) passed.now) }
{
    let mut text = String::new(alloc);
    push_added(&mut text, batch)?;
    push_passed(alloc, &mut text, entries, passed)?;
    let files = batch.items.len();
    writeln!(text, "ADDED files {files}")?;
    Ok(text)
}
