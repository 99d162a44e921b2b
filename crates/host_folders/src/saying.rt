// What names on the host say.
ghost use Rattle.std.specs.Prelude.{◌≡◌, ◌≢◌, ℕ, List, IfOk, IfSome, IfNone, MatchOption};
ghost use Rattle.host_folders.specs.HostNames.{text_beside};
ghost use Rattle.host_folders.specs.HostEntries.{FileView, SaysFile, SaysFolder, file_view};
ghost use Rattle.host_folders.specs.Reading.{IsAroundHash};

use crate::said::HostFile;
use crate::said_stem::stored_name;
use crate::said_tail::Tail;
use std::alloc::{AllocError, Allocator};
use vol_layout::PlaceForm;

// What stands before and behind the last `#`.
fn around_hash(name: &str) -> Option<(&str, &str)>
    ensures some { IfSome result (λ parts. IsAroundHash name.now parts.0.now parts.1.now) }
    ensures none { IfNone result ((front tail : List ℕ) → ¬ IsAroundHash name.now front tail) }
{
    name.rsplit_once('#')
}

/// The file that the name of a file says: `NAME#TTAAAA`, maybe with an extension behind it, or with `.utf8.txt`.
///
/// # Errors
/// Where memory ran out.
pub fn file_of<A: Allocator>(
    alloc: A,
    form: PlaceForm,
    name: &str,
) -> Result<Option<HostFile<A>>, AllocError>
    ensures { IfOk result (λ found. MatchOption found ((file : FileView) → ¬ SaysFile form name.now file)
        (λ file. SaysFile form name.now (file_view file))) }
{
    let Some((front, tail)) = around_hash(name) else {
        return Ok(None);
    };
    let Some(tail) = Tail::read(tail.as_bytes()) else {
        return Ok(None);
    };
    let Some(name) = stored_name(alloc, form, front)? else {
        return Ok(None);
    };
    Ok(Some(HostFile {
        name,
        file_type: tail.file_type,
        aux_type: tail.aux_type,
        content: tail.content,
    }))
}

/// The stored name that the name of a folder says.
///
/// # Errors
/// Where memory ran out.
pub fn folder_of<A: Allocator>(
    alloc: A,
    form: PlaceForm,
    name: &str,
) -> Result<Option<Vec<u8, A>>, AllocError>
    ensures { IfOk result (λ found. MatchOption found ((stored : List ℕ) → ¬ SaysFolder form name.now stored)
        (λ stored. SaysFolder form name.now stored.items)) }
{
    stored_name(alloc, form, name)
}

/// The name of the file that a text of this name stands beside, where it ends with `.utf8.txt`.
pub fn file_beside(name: &str) -> Option<&str>
    ensures some { IfSome result (λ file. name.now ≡ text_beside file.now) }
    ensures none { IfNone result ((file : List ℕ) → name.now ≢ text_beside file) }
{
    name.strip_suffix(".utf8.txt")
}
