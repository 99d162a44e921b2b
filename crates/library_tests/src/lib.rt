//! The tests of all libraries, a module for each layer of them; a run of the gate proves some and runs the others
//! (`tests/turns`):
//! - `formats`: images, both file systems, texts, and other forms of files
//! - `moves`: layouts, plans, certificates, the check of a volume, and the optimizer
//! - `events`: lists of events on volumes whose parts move
//! - `files`: listings, reads and edits of files, and names and folders on the host
//! - `folders`: folders that are added, and files that are replaced on the host
//! - `commands`: words, replies, surveys and whole commands
#![tactic(auto)]

#[cfg(test)]
mod commands;
#[cfg(test)]
mod events;
#[cfg(test)]
mod files;
#[cfg(test)]
mod folders;
#[cfg(test)]
mod formats;
#[cfg(test)]
mod moves;
