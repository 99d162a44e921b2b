// Bytes and listings, written to writers that may fail.
ghost use Rattle.std.specs.Prelude.{◌<◌, ◌≡◌, ◌++◌, [], IsTrue, flat_map, length, slice_index_or};
ghost use Rattle.std.specs.Io.KnownBytes.{Appends};
ghost use Rattle.file_listings.specs.ProLines.{lines_of, listed_in, listed_text};
ghost use Rattle.file_listings.specs.ProText.{first_line, last_line};
ghost use Rattle.shop_replies.specs.Reply.{AppendsFront, IsWritten, numbered};

use crate::refusal::Side;
use crate::reply::FAILED;
use file_listings::ProLines;
use std::io::{ErrorKind, Write};

/// Writes bytes and answers the status, or 4 where the writer fails.
pub fn written<W: Write>(bytes: &[u8], status: u8, writer: &mut W) -> u8
    ensures { IsWritten status bytes.now result (W.contents writer.old) (W.contents writer.new) }
{
    if !write_whole(bytes, writer) {
        return FAILED;
    }
    if writer.flush().is_err() {
        return FAILED;
    }
    status
}

/// Writes bytes to the last, or as many as the writer takes, and answers whether it took all.
pub fn write_whole<W: Write>(bytes: &[u8], writer: &mut W) -> bool
    ensures whole { IsTrue result → Appends (W.contents writer.old) (W.contents writer.new) bytes.now }
    ensures front { AppendsFront (W.contents writer.old) (W.contents writer.new) bytes.now }
{
    let mut taken = 0;
    for _ in 0..u64::MAX {
        if taken == bytes.len() {
            return true;
        }
        match writer.write(&bytes[taken..]) {
            Ok(0) => return false,
            Ok(count) => taken += count,
            Err(error) if error.kind() == ErrorKind::Interrupted => {}
            Err(_) => return false,
        }
    }
    false
}

// Writes bytes and others behind them to the last, or as many as the writer takes, and answers whether it took all.
pub(crate) fn write_both<W: Write>(first: &[u8], other: &[u8], writer: &mut W) -> bool
    ensures whole { IsTrue result
        → Appends (W.contents writer.old) (W.contents writer.new) (first.now ++ other.now) }
    ensures front { AppendsFront (W.contents writer.old) (W.contents writer.new) (first.now ++ other.now) }
{
    write_whole(first, writer) && write_whole(other, writer)
}

// Writes a line with the number of an image in it, or as much of it as the writer takes, and answers whether it took
// all.
pub(crate) fn write_numbered<W: Write>(line: &[u8], side: Side, writer: &mut W) -> bool
    ensures whole { IsTrue result
        → Appends (W.contents writer.old) (W.contents writer.new) (numbered side line.now) }
    ensures front { AppendsFront (W.contents writer.old) (W.contents writer.new) (numbered side line.now) }
{
    write_both(&line[..line.len().saturating_sub(1)], side.end(), writer)
}

// Writes the line of an entry of a listing, or as much of it as the writer takes, and answers whether it took all.
fn write_entry<W: Write>(lines: &mut ProLines, entry: u32, writer: &mut W) -> bool
    requires { entry < length (lines_of (listed_in lines.old)) }
    ensures whole { IsTrue result → Appends (W.contents writer.old) (W.contents writer.new)
        (slice_index_or (lines_of (listed_in lines.old)) entry []) }
    ensures front { AppendsFront (W.contents writer.old) (W.contents writer.new)
        (slice_index_or (lines_of (listed_in lines.old)) entry []) }
    ensures lines { listed_in lines.new ≡ listed_in lines.old }
{
    lines.make_entry(entry).is_ok() && write_whole(lines.line(), writer)
}

// Writes the lines of all entries of a listing, or as much of them as the writer takes, and answers whether it took
// all.
fn write_entries<W: Write>(lines: &mut ProLines, writer: &mut W) -> bool
    ensures whole { IsTrue result → Appends (W.contents writer.old) (W.contents writer.new)
        (flat_map (λ text. text) (lines_of (listed_in lines.old))) }
    ensures front { AppendsFront (W.contents writer.old) (W.contents writer.new)
        (flat_map (λ text. text) (lines_of (listed_in lines.old))) }
    ensures lines { listed_in lines.new ≡ listed_in lines.old }
{
    for entry in 0..lines.entries() {
        if !write_entry(lines, entry, writer) {
            return false;
        }
    }
    true
}

// Writes the first line of a listing, or as much of it as the writer takes, and answers whether it took all.
fn write_first<W: Write>(lines: &mut ProLines, writer: &mut W) -> bool
    ensures whole { IsTrue result → Appends (W.contents writer.old) (W.contents writer.new)
        (first_line (listed_in lines.old).style (listed_in lines.old).directory) }
    ensures front { AppendsFront (W.contents writer.old) (W.contents writer.new)
        (first_line (listed_in lines.old).style (listed_in lines.old).directory) }
    ensures lines { listed_in lines.new ≡ listed_in lines.old }
{
    lines.make_first().is_ok() && write_whole(lines.line(), writer)
}

// Writes the last line of a listing, or as much of it as the writer takes, and answers whether it took all.
fn write_last<W: Write>(lines: &mut ProLines, writer: &mut W) -> bool
    ensures whole { IsTrue result → Appends (W.contents writer.old) (W.contents writer.new)
        (last_line (listed_in lines.old).style (listed_in lines.old).directory) }
    ensures front { AppendsFront (W.contents writer.old) (W.contents writer.new)
        (last_line (listed_in lines.old).style (listed_in lines.old).directory) }
{
    lines.make_last().is_ok() && write_whole(lines.line(), writer)
}

// Writes the lines of a listing, each as it is made, or as many bytes of them as the writer takes, and answers whether
// it took all.
pub(crate) fn write_lines<W: Write>(lines: &mut ProLines, writer: &mut W) -> bool
    ensures whole { IsTrue result
        → Appends (W.contents writer.old) (W.contents writer.new) (listed_text (listed_in lines.old)) }
    ensures front { AppendsFront (W.contents writer.old) (W.contents writer.new)
        (listed_text (listed_in lines.old)) }
{
    if !write_first(lines, writer) {
        return false;
    }
    if !write_entries(lines, writer) {
        return false;
    }
    write_last(lines, writer)
}
