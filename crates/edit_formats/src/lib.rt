//! What an edit of a file is, by which writes it is made, and what it asks of a format; what saving a new file asks of
//! one, and the parts of a new file.
//!
//! An edit is a list of writes that is made whole before the first of them goes to the device: all room is taken and
//! all is weighed then, so that no write waits for memory. A write that is made is a `Prepared` unit with its place
//! (`specs/Prepared.antt`); what stands on the device when a list of them is written, all of it or a front where one
//! fails, is `HasEdited` (`specs/Writes.antt`). Places are marked free, or used, by one write for each unit of the map
//! that has marks of them, each once and in rising order (`specs/Markings.antt`). Why an edit is refused is an
//! `EditError` (`specs/Refusal.antt`).
//!
//! What the commands ask of a format beside its parts and its names is the trait `EditableFormat`; its model is the
//! record `EditMeaning` (`specs/Edits.antt`); DOS 3.3 and ProDOS have it (`specs/DosEdits.antt`,
//! `specs/ProEdits.antt`). What an edit does to the list of files is a function on that list (`specs/Lists.antt`), and
//! what stands after it `specs/Edited.antt`.
//!
//! Which names a file may get, whether an entry of its directory has one, and how it is stored, is the record
//! `NameMeaning` (`specs/Names.antt`, `specs/DosNames.antt`, `specs/ProNames.antt`); what renaming leaves and why it is
//! refused, `specs/Renamed.antt`.
//!
//! A deletion is more than one write. First the entry is erased, by one write in DOS 3.3 and by one or two in ProDOS;
//! the record `EraseMeaning` has the bytes of these writes and says which files are protected (`specs/Erasing.antt`,
//! `specs/DosErasing.antt`, `specs/ProErasing.antt`). Then come the units of the map in which its places are marked
//! free. What these together leave is `specs/Deleted.antt`. The commands stand in `file_edits`.
//!
//! What always holds: what prepares a write only reads, and fails for want of memory or for a read that failed alone; a
//! refusal leaves the device as it was; where a read or a write fails, a front of the list stands, and the files are
//! those of before or those of after.
//!
//! **Saving.** The trait `SavableFormat` asks of a format where the entry of a new file goes, which parts the file has,
//! the units of its tables, and the writes that enter it. Its model is the record `SaveMeaning` (`specs/Saves.antt`);
//! DOS 3.3 and ProDOS have it (`specs/DosSaves.antt`, `specs/ProSaves.antt`). What saving needs of the format beside
//! this is the record `IsSavable`: that the tables and the units of the body are what the entry leads to, and that the
//! writes that were made ready on the volume as it was enter the file once its units stand and its places are marked.
//!
//! **The parts of a new file.** A file is a row of units, of which some are stored; a unit that is not reads as zeros.
//! Besides the units of its body that are stored a file has the tables that name them: track/sector lists in DOS 3.3,
//! indexes and a master index in ProDOS. `specs/Parts.antt` says as whole lists which parts a file has, in the order in
//! which a volume has them: each table before the units that it names. `specs/Order.antt` says what a plan of the file
//! needs of this order, and the laws that the lists have it.
//!
//! Where each part has a place, the unit of each list, index and master index is determined: `specs/ListUnit.antt` and
//! `specs/TableUnit.antt` say it byte by byte. Each is built by itself, in time that grows with the parts that it
//! names. The laws (`placing`) say that these units and any units of the body are what an entry that points to the
//! first part leads to, as `vol_laws` asks of a file that is entered.
#![tactic(auto)]

mod counting;
mod dos_edits;
mod dos_file_parts;
mod dos_naming;
mod dos_saves;
mod editable;
mod error;
mod list_unit;
mod marking;
mod new_part;
mod parts_error;
mod parts_laws;
mod paths;
mod placing;
mod pro_edits;
mod pro_erasing;
mod pro_file_parts;
mod pro_naming;
mod pro_saves;
mod savable;
mod table_unit;
mod taking;
mod target;
mod units;
mod writes;

pub use counting::{FileCount, counted_writes};
pub use dos_file_parts::dos_parts;
pub use dos_naming::{dos_name, has_name, is_dos_name};
pub use editable::EditableFormat;
pub use error::EditError;
pub use list_unit::build_list;
pub use marking::{mark_all, mark_unit, next_unit};
pub use new_part::NewPart;
pub use parts_error::NewFileError;
pub use parts_laws::{parts_of_a_new_dos_file, parts_of_a_new_pro_file};
pub use paths::last_name;
pub use placing::{
    a_placed_dos_file_is_built, a_placed_file_has_its_body, a_placed_pro_file_is_built,
    a_plan_with_units_has_its_parts,
};
pub use pro_file_parts::{pro_parts, pro_storage};
pub use pro_naming::{is_name_in, is_pro_name, pro_name, refusal};
pub use pro_saves::directory_at;
pub use savable::SavableFormat;
pub use table_unit::{build_index, build_master};
pub use target::{Attributes, Extent, Slot, Target};
pub use units::{copy_unit, read_unit, write_unit};
pub use writes::{Prepared, alone, behind, write_all};
