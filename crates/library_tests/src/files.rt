//! Tests of the libraries of files: of `file_cmds`, `file_listings` and `file_edits` worked volumes of DOS 3.3 and
//! ProDOS with the literal text of their listings and the literal bytes of their files, each public call on its happy
//! path, refused memory, and each read and write failing in turn; of `host_folders` names, what they say, folders in
//! memory and new folders of the system.

mod deletions;
mod directories;
mod dos_listings;
mod dos_reads;
mod host_names;
mod jobs;
mod late_failures;
mod locks;
mod names_read_back;
mod new_folders;
mod new_folders_memory;
mod plan_lines;
mod prodos_files;
mod reclaims;
mod renames;
mod runs;
mod savings;
mod stored_names;
