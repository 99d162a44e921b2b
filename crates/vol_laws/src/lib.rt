//! What writes do to the files of a volume, in every format that can be written: the single writes of a mover, and
//! those of an edit.
//!
//! Nothing here runs but the marks that a mover makes (`Mark`): each function is a law, with an empty body and its
//! contract for the statement. The proofs are over any `Meaning` that meets the laws of `vol_format`.
//!
//! A mover makes three kinds of writes: a copy of a part's unit to a place that no part has, a pointer that then names
//! the copy, and places marked used or free in a unit of the map. The laws say of an accepted store and its directory
//! what they are after one such write:
//!
//! - the store is accepted, and the files have the same parts with the same contents (`specs/Kept.antt`); where a
//!   pointer is written, one part stands at another place and the layout changes by its one number
//!   (`specs/Moved.antt`); `specs/Marked.antt` has units of the map with several places marked (`laws`),
//! - which places are lost: available, marked used and no part's (`lost`),
//! - the units of the system have the same contents (`specs/System.antt`, `system`).
//!
//! An edit writes to one entry of a directory, deletes a file, or saves a new one. What it asks of a format besides is
//! `IsFileFree` (`specs/EditLaws.antt`): that a unit means the same in a file of any number. A directory with one entry
//! more, or with one rewritten, is a definition (`specs/Inserted.antt`). Taking an entry out is the same read
//! backwards: the directory after is `few`, and the one before `inserted few at entry`.
//!
//! - The parts of one file are those that its entry leads to, with no directory in it (`specs/PartsOf.antt`). An entry
//!   that is entered or has left gives the other files other numbers and leaves their parts where they stand
//!   (`specs/Entered.antt`, `entries`); one that is rewritten leaves all parts (`specs/Rewritten.antt`).
//! - The list of files of a volume has one file more, one less, or one under another path or with other bytes of its
//!   entry (`specs/FilesOf.antt`, `lists`).
//! - A new file is a plan: a list of parts and the units built for them (`specs/Built.antt`, `plans`). Its units are
//!   written to lost places, which keeps the files, and become a file by the one write that enters its entry.
//! - A file is deleted by a list of writes (`specs/Writes.antt`, `specs/Deletion.antt`, `deleting`): those to the
//!   directory, of which the first erases the entry, and then the units of the map in which the places of the file are
//!   marked free. What stands after each front of this list (`specs/Deleted.antt`): the files are those of before
//!   without one (`specs/Lists.antt`), and at worst places of that file are lost; after the last write the same places
//!   are lost as before.
//! - A file is saved by a list of writes (`specs/Saving.antt`, `saving`): its units to free places, the units of the
//!   map in which these places are marked used, and those to the directory, of which the first enters the file. What
//!   stands after each front of this list (`specs/Saved.antt`): before the entry the files are those of before, and at
//!   worst places of the new file are lost; from the entry on the files are those of before and the new one, and the
//!   same places are lost as before.
#![tactic(auto)]

mod deleting;
mod entries;
mod laws;
mod lists;
mod lost;
mod mark;
mod plans;
mod saving;
mod system;

pub use deleting::{a_deletion_stopped_takes_out_one_file, a_deletion_takes_out_one_file};
pub use entries::{
    a_system_write_keeps_the_files, a_unit_of_the_system_leaves_the_rest,
    an_entry_has_the_number_it_was_entered_at, an_entry_renumbers_the_files,
    the_parts_of_an_entry_have_its_number,
};
pub use laws::{
    a_copy_keeps_the_files, a_copy_makes_a_part_ready, a_mark_keeps_the_files,
    a_pointer_moves_one_part, many_marks_keep_the_files,
};
pub use lists::{
    a_file_has_its_index_among_the_files, a_file_is_that_of_its_entry,
    a_rewritten_entry_keeps_the_others, an_entry_is_one_file_more,
};
pub use lost::{
    a_copy_loses_nothing, a_mark_loses_or_finds_one_place, a_moved_part_leaves_its_place,
    kept_files_stand_where_they_stood,
};
pub use mark::Mark;
pub use plans::{
    a_built_file_is_new, a_held_plan_stays_held, a_plan_is_for_a_file_of_any_number,
    a_plan_is_written_in_any_order, a_planned_file_is_entered, a_rising_plan_has_its_body,
    a_written_plan_keeps_the_files,
};
pub use saving::{
    a_saving_enters_one_file, a_saving_stopped_before_its_entry_keeps_the_files,
    placed_units_keep_the_files,
};
pub use system::{each_write_keeps_the_system, marks_are_read_back};
