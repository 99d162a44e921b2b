// The line of a volume in JSON, which stands before those of its entries.
ghost use Rattle.std.specs.Prelude.{Some};
ghost use Rattle.json.specs.Print.{quoted};
ghost use Rattle.serde_json.specs.Written.{compact_text};
ghost use Rattle.row_text.specs.Row.{system_word, volume_data, volume_text, volume_view};

use crate::json_text::JsonText;
use std::fmt;

/// The file system of a volume.
#[derive(Clone, Copy, PartialEq, Eq)]
pub enum FileSystem {
    Dos,
    Prodos,
}

impl fmt::Display for FileSystem {
    ghost output = { λ s. Some (system_word s) };

    fn fmt<W: fmt::Write>(&self, f: &mut fmt::Formatter<W>) -> fmt::Result {
        match self {
            FileSystem::Dos => write!(f, "dos"),
            FileSystem::Prodos => write!(f, "prodos"),
        }
    }
}

/// What a volume is called: a number on DOS 3.3, a name on ProDOS.
#[derive(Clone, Copy)]
pub enum VolumeName<'a> {
    Number(u8),
    Name(&'a [u8]),
}

// What a volume is called, as a string of JSON.
#[derive(Clone, Copy)]
struct JsonName<'a>(VolumeName<'a>);

impl fmt::Display for JsonName<'_> {
    ghost output = { λ n. Some (quoted (volume_text n.0)) };

    #[tactic(auto, using(crate::proofs::Plain::escape_decimal))]
    fn fmt<W: fmt::Write>(&self, f: &mut fmt::Formatter<W>) -> fmt::Result {
        match self.0 {
            VolumeName::Number(number) => write!(f, "\"{number}\""),
            VolumeName::Name(name) => {
                let text = JsonText(name);
                write!(f, "{text}")
            }
        }
    }
}

/// The line of a volume in JSON, without a line end.
#[derive(Clone, Copy)]
pub struct JsonVolume<'a> {
    /// How many entries it has.
    pub entries: usize,
    /// How many of its places are free.
    pub free: u32,
    pub file_system: FileSystem,
    /// How many places it has.
    pub places: u32,
    pub volume: VolumeName<'a>,
}

impl fmt::Display for JsonVolume<'_> {
    ghost output = { λ v. Some (compact_text (volume_data (volume_view v))) };

    #[tactic(auto, unfolding(json::specs::Print::escape_byte))]
    fn fmt<W: fmt::Write>(&self, f: &mut fmt::Formatter<W>) -> fmt::Result {
        let entries = self.entries;
        let free = self.free;
        let system = self.file_system;
        let places = self.places;
        let volume = JsonName(self.volume);
        write!(
            f,
            "{{\"entries\":{entries},\"free\":{free},\"fs\":\"{system}\""
        )?;
        write!(f, ",\"places\":{places},\"volume\":{volume}}}")
    }
}
