// The lines of a listing of a ProDOS volume.
ghost use Rattle.std.specs.Prelude.{◌≡◌, ◌<◌, [], length, slice_index_or, IfOk, OnOk, Some};
ghost use Rattle.pro_format.specs.ProVolume.{tree_of};
ghost use Rattle.file_listings.specs.Known.{facts_in, facts_of};
ghost use Rattle.file_listings.specs.ProLines.{directory_in, line_in, lines_of, listed_in, most_path_bytes, pro_volume};
ghost use Rattle.file_listings.specs.ProText.{first_line, last_line, told_line};
ghost use Rattle.row_text.specs.Row.{volume_view};

use crate::facts::KnownFile;
use crate::known::KnownFiles;
use crate::pro_text::CatalogLine;
use crate::rows::{HeadLine, ProRowLine};
use crate::style::Style;
use file_formats::{ListEntry, listed_entry};
use pro_format::ProVolume;
use row_text::{FileSystem, JsonVolume, ShownBytes, VolumeName};
use std::alloc::{AllocError, Allocator, Global};
use std::{fmt, mem};

/// The most bytes that a name and a slash take in a path.
const NAME_BYTES: usize = 16;

/// The most blocks of a volume, and so the most directories that a path leads through.
const MOST_BLOCKS: usize = 65_535;

/// The most bytes that a line takes beside its path, and how often a byte of the path may stand in it: as a character
/// that takes two, and as two digits.
const LINE_BYTES: usize = 512;

const OF_A_BYTE: usize = 4;

/// The most bytes that a part of a file takes in a line.
const PART_BYTES: usize = 40;

/// The most bytes that the path of a file of a volume has.
pub fn most_path_bytes<A: Allocator>(volume: &ProVolume<A>) -> usize
    ensures { result ≡ most_path_bytes (tree_of volume.now) }
{
    let directories = volume.directory().blocks().len().min(MOST_BLOCKS);
    NAME_BYTES * (directories + 1)
}

/// The lines of the listing of a ProDOS volume that was read, made one at a time. The room for the longest is taken
/// first, so that no line that is made later wants memory.
pub struct ProLines<A: Allocator = Global> {
    alloc: A,
    style: Style,
    volume: ProVolume<A>,
    known: KnownFiles<A>,
    path: Vec<u8, A>,
    line: String<A>,
}

impl<A: Allocator> Drop for ProLines<A> {
    fn drop(self) {
        let ProLines {
            alloc: _,
            style: _,
            volume: _,
            known: _,
            path: _,
            line: _,
        } = self;
    }
}

// The line of an entry, with its end.
#[derive(Drop)]
struct EntryLine<'a, 'k, A: Allocator> {
    style: Style,
    entry: &'a ListEntry<A>,
    known: KnownFile<'k>,
}

impl<A: Allocator> fmt::Display for EntryLine<'_, '_, A> {
    ghost output = { λ l. Some (told_line l.style l.entry.now (facts_of l.known)) };

    fn fmt<W: fmt::Write>(&self, f: &mut fmt::Formatter<W>) -> fmt::Result {
        match self.style {
            Style::Catalog => {
                let line = CatalogLine(self.entry);
                writeln!(f, "{line}")
            }
            Style::Entries(style) => {
                let line = ProRowLine {
                    style,
                    entry: self.entry,
                    known: self.known,
                };
                write!(f, "{line}")
            }
        }
    }
}

// What is told of a volume.
fn volume_of<A: Allocator>(volume: &ProVolume<A>) -> JsonVolume<'_>
    ensures { volume_view result ≡ pro_volume volume.now }
{
    JsonVolume {
        entries: volume.directory().entries().len(),
        free: volume.map().free_count(),
        file_system: FileSystem::Prodos,
        places: volume.directory().total(),
        volume: VolumeName::Name(volume.directory().name()),
    }
}

impl<A: Allocator + Copy> ProLines<A> {
    /// The lines of a volume, with what is known of the files of its entries, and none made yet.
    ///
    /// # Errors
    /// Want of memory alone.
    pub fn new(
        alloc: A,
        style: Style,
        volume: ProVolume<A>,
        known: KnownFiles<A>,
    ) -> Result<ProLines<A>, AllocError>
        ensures { IfOk result (λ lines. listed_in lines ≡ record {
          style = style;
          directory = directory_in volume;
          facts = facts_in known;
        }) }
    {
        let most = most_path_bytes(&volume);
        let path = Vec::with_capacity(alloc, most)?;
        let parts = known.most_parts().saturating_mul(PART_BYTES);
        let line = String::with_capacity(
            alloc,
            parts.saturating_add(OF_A_BYTE * most + LINE_BYTES),
        )?;
        Ok(ProLines {
            alloc,
            style,
            volume,
            known,
            path,
            line,
        })
    }

    /// How many entries have a line, those of directories among them.
    pub fn entries(&self) -> u32
        ensures { result ≡ length (lines_of (listed_in self.now)) }
    {
        self.volume.directory().entries().len() as u32
    }

    /// The line that was made last, with its end.
    pub fn line(&self) -> &[u8]
        ensures { result.now ≡ line_in self.now }
    {
        self.line.as_bytes()
    }

    /// Makes the first line: the volume's name, or what stands before the entries as data.
    ///
    /// # Errors
    /// Want of memory alone.
    pub fn make_first(&mut self) -> Result<(), AllocError>
        ensures line { OnOk result (line_in self.new
            ≡ first_line (listed_in self.old).style (listed_in self.old).directory) }
        ensures same { listed_in self.new ≡ listed_in self.old }
    {
        self.line.clear();
        match self.style {
            Style::Catalog => {
                let volume = ShownBytes(self.volume.directory().name());
                writeln!(self.line, "VOLUME /{volume}")?;
            }
            Style::Entries(style) => {
                let head = HeadLine {
                    style,
                    volume: volume_of(&self.volume),
                };
                write!(self.line, "{head}")?;
            }
        }
        Ok(())
    }

    /// Makes the line of an entry.
    ///
    /// # Errors
    /// Want of memory alone.
    pub fn make_entry(&mut self, entry: u32) -> Result<(), AllocError>
        requires { entry < length (lines_of (listed_in self.old)) }
        ensures line { OnOk result (line_in self.new
            ≡ slice_index_or (lines_of (listed_in self.old)) entry []) }
        ensures same { listed_in self.new ≡ listed_in self.old }
    {
        let path = mem::replace(&mut self.path, Vec::new(self.alloc));
        let listed = listed_entry(&self.volume, entry, path)?;
        let text = EntryLine {
            style: self.style,
            entry: &listed,
            known: self.known.at(entry as usize),
        };
        self.line.clear();
        write!(self.line, "{text}")?;
        self.path = listed.path.into_bytes();
        Ok(())
    }

    /// Makes the last line, how many blocks are free; behind entries as data there is none.
    ///
    /// # Errors
    /// Want of memory alone.
    pub fn make_last(&mut self) -> Result<(), AllocError>
        ensures line { OnOk result (line_in self.new
            ≡ last_line (listed_in self.old).style (listed_in self.old).directory) }
        ensures same { listed_in self.new ≡ listed_in self.old }
    {
        self.line.clear();
        match self.style {
            Style::Catalog => {
                let free = self.volume.map().free_count();
                writeln!(self.line, "FREE {free}")?;
            }
            Style::Entries(_) => {}
        }
        Ok(())
    }
}
