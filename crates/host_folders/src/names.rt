// The name of an entry on the host.
ghost use Rattle.std.specs.Prelude.{◌≡◌, ◌<◌, ◌≤◌, ◌++◌, All, IfOk, string_bytes};
ghost use Rattle.host_folders.specs.HostNames.{bare_name, ending, entry_view, folded, host_name, stem, text_beside};

use crate::entry::{Naming, Stored};
use crate::safe::{no_device, safe_first, safe_last};
use crate::stem::stem;
use crate::tail::{push_number, push_tail};
use std::alloc::{AllocError, Allocator};

// Stem, number and tail.
fn joined<A: Allocator + Copy>(
    alloc: A,
    naming: Naming,
    stored: &Stored,
    number: u32,
) -> Result<Vec<u8, A>, AllocError>
    ensures { let entry = entry_view stored.now in
        IfOk result (λ text. text.items ≡ stem entry.form entry.name ++ ending naming entry number) }
{
    let mut text = stem(alloc, stored.form, stored.name)?;
    push_number(alloc, &mut text, number)?;
    push_tail(&mut text, naming, stored)?;
    Ok(text)
}

// The name of an entry, in bytes.
fn mended<A: Allocator + Copy>(
    alloc: A,
    naming: Naming,
    stored: &Stored,
    number: u32,
) -> Result<Vec<u8, A>, AllocError>
    ensures { IfOk result (λ text. text.items ≡ host_name naming (entry_view stored.now) number) }
{
    let text = joined(alloc, naming, stored, number)?;
    let text = safe_first(alloc, text)?;
    let text = safe_last(text)?;
    no_device(alloc, text)
}

// What the types of the parts of an entry say of them.
fn parts_fit(name: &[u8], kind: u8, aux: u16)
    ensures bytes { All (λ byte. byte < 256) name.now }
    ensures kind { kind < 256 }
    ensures aux { aux < 65536 }
{}

/// The name under which an entry stands in a folder of the host: plain ASCII, safe on every system. The number tells
/// entries of a folder apart whose bare names are one without regard to case; that of the first is 1.
///
/// # Errors
/// Where memory ran out.
pub fn host_name<A: Allocator + Copy>(
    alloc: A,
    naming: Naming,
    stored: &Stored,
    number: u32,
) -> Result<String<A>, AllocError>
    requires { 1 ≤ number }
    ensures { IfOk result (λ name. string_bytes name ≡ host_name naming (entry_view stored.now) number) }
{
    parts_fit(stored.name, stored.kind, stored.aux);
    let text = mended(alloc, naming, stored, number)?;
    Ok(String::from_utf8(text).unwrap())
}

/// The name of the readable form of a file, where it stands beside the file of this name.
///
/// # Errors
/// Where memory ran out.
pub fn text_beside<A: Allocator>(alloc: A, name: &str) -> Result<String<A>, AllocError>
    ensures { IfOk result (λ text. string_bytes text ≡ text_beside name.now) }
{
    let mut text = name.to_string(alloc)?;
    text.push_str(".utf8.txt")?;
    Ok(text)
}

/// The stem and the tail of an entry, letters as small ones. Entries of a folder for which these are equal get
/// different numbers.
///
/// # Errors
/// Where memory ran out.
pub fn bare_name<A: Allocator + Copy>(
    alloc: A,
    naming: Naming,
    stored: &Stored,
) -> Result<Vec<u8, A>, AllocError>
    ensures { IfOk result (λ text. text.items ≡ folded (bare_name naming (entry_view stored.now))) }
{
    let mut text = joined(alloc, naming, stored, 1)?;
    text.make_ascii_lowercase();
    Ok(text)
}
