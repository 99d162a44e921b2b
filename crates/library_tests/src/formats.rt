//! The tests of images and of both file systems: of `a2_nibble`, `a2_image`, `a2_device` and `test_volumes`; of
//! `vol_layout`; of `dos_vtoc`, `dos_catalog`, `dos_tslist` and `dos_format`; of `pro_bitmap`, `pro_dir`,
//! `pro_dates`, `pro_tree` and `pro_format`; of `edit_formats` for each of the two; and of the texts, programs, other
//! forms and containers of `apple_text`, `applesoft`, `integer_basic`, `apple_single`, `file_forms` and
//! `disk_container`. They hold the worked rows with literal values, printed text, each public call on its happy path,
//! refused memory, and reads and writes that fail.

mod allocators;
mod apple_texts;
mod basic_programs;
mod containers;
mod devices;
mod dos_catalogs;
mod dos_formats;
mod dos_gaps;
mod dos_lists;
mod dos_maps;
mod dos_memory;
mod dos_new_parts;
mod dos_reserved;
mod images;
mod orders;
mod other_forms;
mod pro_checks;
mod pro_civil_dates;
mod pro_directories;
mod pro_files;
mod pro_formats;
mod pro_maps;
mod pro_memory;
mod pro_new_parts;
mod pro_paths;
mod pro_pointers;
mod pro_slots;
mod texts_memory;
mod tracks;
mod windows;
