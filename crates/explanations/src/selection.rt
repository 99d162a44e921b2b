// Which explanations a text asks for.
ghost use Rattle.std.specs.Prelude.{◌≡◌, IfOk, filter, map};
ghost use Rattle.explanations.specs.Explained.{begins_a_line, begins_line, ends_words};

use crate::explanation::Explanation;
use std::alloc::{AllocError, Global};

// Whether no byte, or a space, stands behind words.
fn ends_words(next: Option<u8>) -> bool
    ensures { result ≡ ends_words next }
{
    match next {
        Some(byte) => byte == b' ',
        None => true,
    }
}

// Whether a line begins with these words.
fn begins_line(front: &str, line: &[u8]) -> bool
    ensures { result ≡ begins_line front.now line.now }
{
    line.starts_with(front.as_bytes()) && ends_words(line.get(front.len()).copied())
}

// Whether a line of a text begins with these words.
fn begins_a_line(front: &str, text: &[u8]) -> bool
    ensures { result ≡ begins_a_line front.now text.now }
{
    text.split(|byte| *byte == b'\n')
        .any(|line| begins_line(front, line))
}

/// The rows of a table whose words begin a line of a text, in the order of the table.
///
/// # Errors
/// Want of memory.
pub fn explained<'a>(
    alloc: Global,
    table: &'a [Explanation],
    text: &[u8],
) -> Result<Vec<&'a Explanation>, AllocError>
    ensures { IfOk result (λ rows.
        map (λ row. row.now) rows.items ≡ filter (λ row. begins_a_line row.front.now text.now) table.now) }
{
    table
        .iter()
        .filter(|row| begins_a_line(row.front, text))
        .collect(alloc)
}
