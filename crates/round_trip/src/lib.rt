//! What `extract` puts into a folder of the host, taken as what `add` adds to a volume: it is planned as the files and
//! directories of the volume that was extracted.
//!
//! Nothing here runs: each function is a law, with a body that does nothing and its contract for the statement. The
//! laws stand on what is proved of the two halves, `volume_extract` and `folder_adding`, and of the names between them
//! (`host_folders`).
//!
//! An extraction (`specs/Extracted.antt`) is a volume, the directory that its store describes, and the items of that
//! directory's entries as `extract` makes them, with types in the names of files. What `extract` tells to be done is
//! one (`what_extract_does_is_an_extraction`).
//!
//! What becomes of its items where they are added again is `specs/Planned.antt`. The path of a file says the stored
//! names of the directories in which it stood, and its own name, type and aux type; and where a new file may have
//! these, it is added under the path that it had, with its kind and aux type
//! (`an_extracted_file_is_planned_as_it_was`). Its readable form is passed over beside it, and alone it is added as the
//! file (`a_readable_form_is_passed_over_or_planned`). The folder of a directory says the names too, and the directory
//! is made under the path that it had (`an_extracted_directory_is_planned_as_it_was`). What can't be added is refused
//! for its type, which may be that of directories, or for a name.
//!
//! Of all that was made, as the entries of a folder in any order, `specs/Whole.antt` speaks: where new files and
//! directories may have all names and types, no entry is refused, and the plan has just the files that were read, just
//! the directories, and passes over just the readable forms, each once and with its own entry
//! (`an_extraction_is_planned_as_it_was`, `what_was_made_are_entries`), so that the bytes of a file are its body
//! (`planned_files_hold_what_was_extracted`) and just these are taken from the readable form beside it
//! (`readable_forms_give_their_files_back`). The entry with which a file is then saved has the path that the file had
//! (`specs/Stored.antt`, `a_planned_file_is_stored_under_its_path`).
#![tactic(auto)]

mod law;

pub use law::{
    a_planned_file_is_stored_under_its_path, a_readable_form_is_passed_over_or_planned,
    an_extracted_directory_is_planned_as_it_was, an_extracted_file_is_planned_as_it_was,
    an_extraction_is_planned_as_it_was, planned_files_hold_what_was_extracted,
    readable_forms_give_their_files_back, what_extract_does_is_an_extraction,
};
