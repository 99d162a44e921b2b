// The text of an extraction, written a line at a time to a writer that may fail.
ghost use Rattle.std.specs.Prelude.{◌≡◌, ◌<◌, IfErr, IfOk, IsTrue, List, flat_map, length};
ghost use Rattle.std.specs.Io.KnownBytes.{Appends};
ghost use Rattle.file_listings.specs.DosText.{line};
ghost use Rattle.volume_extract.specs.ExtractText.{extract_text, item_text, totals_of};
ghost use Rattle.volume_extract.specs.Items.{Item, item_at};
ghost use Rattle.volume_extract.specs.Kept.{TellsItems};
ghost use Rattle.shop_replies.specs.Reply.{AppendsFront};
ghost use Rattle.shop_commands.specs.Extracting.{IsExtractCut, IsExtractTold, extract_status};

use crate::extracting::NotExtracted;
use shop_replies::{Status, write_whole};
use std::alloc::Global;
use std::io::Write;
use volume_extract::{Extraction, Totals, TreeFormat};

// Writes the line of an entry, or as much of it as the writer takes, and answers whether it took all.
fn write_line<F: TreeFormat, T: Write>(
    alloc: Global,
    told: &Extraction<'_, F>,
    entry: u32,
    text: &mut T,
) -> bool
    requires told { (items : List Item) × TellsItems told.now.opened.form (F.own told.now.opened.format.now)
        (F.directory told.now.opened.format.now told.now.opened.volume) told.now.opened.naming items
        told.now.kept.items told.now.totals }
    requires entry { entry < length told.now.kept.items }
    ensures whole { (items : List Item) → TellsItems told.now.opened.form (F.own told.now.opened.format.now)
        (F.directory told.now.opened.format.now told.now.opened.volume) told.now.opened.naming items
        told.now.kept.items told.now.totals → IsTrue result
        → Appends (T.contents text.old) (T.contents text.new) (line (item_text (item_at items entry))) }
    ensures front { (items : List Item) → TellsItems told.now.opened.form (F.own told.now.opened.format.now)
        (F.directory told.now.opened.format.now told.now.opened.volume) told.now.opened.naming items
        told.now.kept.items told.now.totals
        → AppendsFront (T.contents text.old) (T.contents text.new) (line (item_text (item_at items entry))) }
{
    match told.line(alloc, entry) {
        Ok(line) => write_whole(line.as_bytes(), text),
        Err(_) => false,
    }
}

// Writes the lines of all entries, or as much of them as the writer takes, and answers whether it took all.
fn write_lines<F: TreeFormat, T: Write>(
    alloc: Global,
    told: &Extraction<'_, F>,
    text: &mut T,
) -> bool
    requires told { (items : List Item) × TellsItems told.now.opened.form (F.own told.now.opened.format.now)
        (F.directory told.now.opened.format.now told.now.opened.volume) told.now.opened.naming items
        told.now.kept.items told.now.totals }
    ensures whole { (items : List Item) → TellsItems told.now.opened.form (F.own told.now.opened.format.now)
        (F.directory told.now.opened.format.now told.now.opened.volume) told.now.opened.naming items
        told.now.kept.items told.now.totals → IsTrue result → Appends (T.contents text.old) (T.contents text.new)
        (flat_map (λ item. line (item_text item)) items) }
    ensures front { (items : List Item) → TellsItems told.now.opened.form (F.own told.now.opened.format.now)
        (F.directory told.now.opened.format.now told.now.opened.volume) told.now.opened.naming items
        told.now.kept.items told.now.totals → AppendsFront (T.contents text.old) (T.contents text.new)
        (flat_map (λ item. line (item_text item)) items) }
{
    for entry in 0..told.entries() {
        if !write_line(alloc, told, entry, text) {
            return false;
        }
    }
    true
}

// Writes the whole text, or as much of it as the writer takes, and answers whether it took all.
fn write_extraction<F: TreeFormat, T: Write>(
    alloc: Global,
    told: &Extraction<'_, F>,
    text: &mut T,
) -> bool
    requires told { (items : List Item) × TellsItems told.now.opened.form (F.own told.now.opened.format.now)
        (F.directory told.now.opened.format.now told.now.opened.volume) told.now.opened.naming items
        told.now.kept.items told.now.totals }
    ensures whole { (items : List Item) → TellsItems told.now.opened.form (F.own told.now.opened.format.now)
        (F.directory told.now.opened.format.now told.now.opened.volume) told.now.opened.naming items
        told.now.kept.items told.now.totals → IsTrue result
        → Appends (T.contents text.old) (T.contents text.new) (extract_text items) }
    ensures front { (items : List Item) → TellsItems told.now.opened.form (F.own told.now.opened.format.now)
        (F.directory told.now.opened.format.now told.now.opened.volume) told.now.opened.naming items
        told.now.kept.items told.now.totals
        → AppendsFront (T.contents text.old) (T.contents text.new) (extract_text items) }
{
    if !write_lines(alloc, told, text) {
        return false;
    }
    match told.last_line(alloc) {
        Ok(line) => write_whole(line.as_bytes(), text),
        Err(_) => false,
    }
}

// The status of an extraction.
fn extract_status(totals: Totals) -> u8
    ensures { (items : List Item) → totals ≡ totals_of items → result ≡ extract_status items }
{
    if totals.unreadable == 0 {
        Status::Done.number()
    } else {
        Status::Wrong.number()
    }
}

/// Tells of the files that were put into a folder, flushes the writer and answers the status.
///
/// # Errors
/// `Text` where the writer fails, or memory for a line.
pub fn tell_extraction<F: TreeFormat, T: Write>(
    alloc: Global,
    told: &Extraction<'_, F>,
    text: &mut T,
) -> Result<u8, NotExtracted>
    requires told { (items : List Item) × TellsItems told.now.opened.form (F.own told.now.opened.format.now)
        (F.directory told.now.opened.format.now told.now.opened.volume) told.now.opened.naming items
        told.now.kept.items told.now.totals }
    ensures whole { (items : List Item) → TellsItems told.now.opened.form (F.own told.now.opened.format.now)
        (F.directory told.now.opened.format.now told.now.opened.volume) told.now.opened.naming items
        told.now.kept.items told.now.totals → IfOk result (λ status.
        IsExtractTold status (T.contents text.old) (T.contents text.new) items) }
    ensures error { IfErr result (λ error. error ≡ NotExtracted.Text) }
    ensures cut { (items : List Item) → TellsItems told.now.opened.form (F.own told.now.opened.format.now)
        (F.directory told.now.opened.format.now told.now.opened.volume) told.now.opened.naming items
        told.now.kept.items told.now.totals → IfErr result (λ _.
        IsExtractCut (T.contents text.old) (T.contents text.new) items) }
{
    if write_extraction(alloc, told, text) && text.flush().is_ok() {
        Ok(extract_status(told.totals()))
    } else {
        Err(NotExtracted::Text)
    }
}
