// The files that are to be saved.
ghost use Rattle.std.specs.Prelude.{◌≡◌, slice_index_or};
ghost use Rattle.folder_adding.specs.Items.{batch_view, file_at, item_view, said_by};
ghost use Rattle.shop_changes.specs.SaidFile.{said_view};

use file_forms::{FileForm, GivenForm};
use pro_dir::ProDate;
use shop_changes::SaidFile;
use shop_jobs::FileSystem;

/// A readable form that stands beside the file of an item. It is not saved, and just the bytes of the file have to be
/// taken from it.
#[derive(Clone, Copy, PartialEq, Eq)]
pub struct Second {
    /// The number of its own file.
    pub file: usize,
    /// How bytes are taken from it.
    pub form: FileForm,
}

/// A file that is to be saved.
#[derive(PartialEq, Eq, Drop)]
pub struct Item {
    /// Its path on the volume.
    pub path: Vec<u8>,
    /// Its type, where one is said.
    pub kind: Option<u8>,
    /// Its aux type or its address, where one is said.
    pub aux: Option<u16>,
    /// The form in which its bytes give it; `None` is as they are.
    pub form: Option<GivenForm>,
    /// Its readable form, where one stands beside it.
    pub second: Option<Second>,
}

/// Files that are to be saved to one volume, in this order.
#[derive(Clone, Copy)]
pub struct Batch<'a> {
    pub file_system: FileSystem,
    /// The date of the creation of each.
    pub date: ProDate,
    pub items: &'a [Item],
    /// For each item the number of its file; 0 is that of an item behind them.
    pub files: &'a [usize],
}

/// The number that stands at a place, and 0 behind the last one.
pub(crate) fn number_at(numbers: &[usize], place: usize) -> usize
    ensures { result ≡ slice_index_or numbers.now place 0 }
{
    match numbers.get(place) {
        Some(number) => *number,
        None => 0,
    }
}

impl Batch<'_> {
    // The number of the file of an item.
    pub(crate) fn file_at(&self, item: usize) -> usize
        ensures { result ≡ file_at (batch_view self.now) item }
    {
        number_at(self.files, item)
    }

    // The new file that an item and these bytes say.
    pub(crate) fn said<'b>(&self, item: &Item, bytes: &'b [u8]) -> SaidFile<'b>
        ensures { said_view result ≡ said_by (batch_view self.now) (item_view item.now) bytes.now }
    {
        SaidFile {
            file_system: self.file_system,
            kind: item.kind,
            aux: item.aux,
            date: self.date,
            form: item.form,
            bytes,
        }
    }
}
