// The line of a report, which takes no memory.
ghost use Rattle.std.specs.Prelude.{◌≡◌, ◌≤◌, ◌+◌, ◌++◌, IfOk, decimal, length, string_bytes};
ghost use Rattle.arrayvec.specs.ArrayString.{array_string_len};
ghost use Rattle.shop_changes.specs.Outcome.{end_word, line_of_report};

use arrayvec::ArrayString;
use itoa::Buffer;
use std::alloc::{AllocError, Global};
use vol_mover::Report;

/// The most bytes of a line.
pub const MOST: usize = 98;

// Puts a word of at most 12 bytes and a number behind a line.
fn put_number(line: &mut ArrayString<MOST>, word: &str, number: u32)
    requires word { length word.now ≤ 12 }
    requires room { array_string_len line.old + 22 ≤ 98 }
    ensures bytes { line.new.bytes ≡ line.old.bytes ++ (word.now ++ decimal number) }
    ensures long { array_string_len line.new ≤ array_string_len line.old + 22 }
{
    line.push_str(word);
    line.push_str(Buffer::new().format(number));
}

// The end of a line.
fn end_word(finished: bool) -> &'static str
    ensures word { result.now ≡ end_word finished }
    ensures short { length result.now ≤ 10 }
{
    if finished {
        " finished\n"
    } else {
        " stopped\n"
    }
}

/// The line of a report, with its end.
pub fn line_of(report: &Report) -> ArrayString<MOST>
    ensures { result.bytes ≡ line_of_report report.now }
{
    let mut line = ArrayString::new();
    put_number(&mut line, "moves ", report.moves);
    put_number(&mut line, " rings ", report.rings);
    put_number(&mut line, " misplaced ", report.misplaced);
    put_number(&mut line, " map writes ", report.map_writes);
    line.push_str(end_word(report.finished));
    line
}

/// The line of a report, with its end, as a text of its own.
///
/// # Errors
/// Want of memory alone.
pub fn line_text(alloc: Global, report: &Report) -> Result<String, AllocError>
    ensures { IfOk result (λ text. string_bytes text ≡ line_of_report report.now) }
{
    line_of(report).as_str().to_string(alloc)
}
