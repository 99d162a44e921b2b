//! The words of a command as clap's matches have them: what they say under each name.
ghost use Rattle.std.specs.Prelude.{◌≡◌, IfErr, IfOk, option_map, string_bytes};
ghost use Rattle.clap.specs.Matches.{found_of};
ghost use Rattle.clap.specs.Walk.{first_of, rows_of};
ghost use Rattle.shop_jobs.specs.Job.{file_name_view};
ghost use Rattle.shop_words.specs.Given.{said_of, words_of};
ghost use Rattle.shop_words.specs.Gives.{Gives};
ghost use Rattle.shop_words.specs.Job.{file_system_named, name_by, order_named};
ghost use Rattle.shop_words.specs.Ways.{is_on};

use crate::hexadecimal::bytes_named;
use crate::misfit::Misfit;
use crate::table::Form;
use a2_device::Order;
use clap::ArgMatches;
use shop_jobs::{FileName, FileSystem};
use std::alloc::Global;

/// What clap's matches have under a parameter's name.
pub fn said<'a>(matches: &ArgMatches<'a>, name: &str) -> Option<&'a str>
    ensures { option_map (λ s. s.now) result ≡ first_of name.now (rows_of (found_of matches.now)) }
{
    matches.get_str(name)
}

/// The words of a command.
#[derive(Clone, Copy)]
pub struct Given<'m, 'a> {
    pub form: &'static Form,
    /// Whether they say `--auto`.
    pub is_auto: bool,
    pub matches: &'m ArgMatches<'a>,
}

impl<'a> Given<'_, 'a> {
    /// What the words say under a parameter's name; a flag says `true`.
    pub fn said(&self, name: &str) -> Option<&'a str>
        ensures { option_map (λ s. s.now) result ≡ (words_of self.now).say name.now }
    {
        said(self.matches, name)
    }

    /// The same of a parameter that must be said.
    pub fn needed(&self, name: &'static str) -> Result<&'a str, Misfit>
        ensures { Gives (λ s. s.now) ((words_of self.now).say name.now) result }
    {
        match self.said(name) {
            Some(word) => Ok(word),
            None => Err(Misfit::Missing { name }),
        }
    }

    /// The same as a text of its own.
    pub fn needed_text(&self, alloc: Global, name: &'static str) -> Result<String, Misfit>
        ensures { Gives string_bytes ((words_of self.now).say name.now) result }
    {
        match self.said(name) {
            Some(word) => Ok(word.to_string(alloc)?),
            None => Err(Misfit::Missing { name }),
        }
    }

    /// What the words say under a parameter's name that may be left out, as a text of its own.
    pub fn text(&self, alloc: Global, name: &str) -> Result<Option<String>, Misfit>
        ensures text { IfOk result (λ text. option_map string_bytes text ≡ (words_of self.now).say name.now) }
        ensures memory { IfErr result (λ misfit. misfit ≡ Misfit.Memory) }
    {
        match self.said(name) {
            Some(word) => Ok(Some(word.to_string(alloc)?)),
            None => Ok(None),
        }
    }

    /// Whether the words turn a flag on.
    pub fn has(&self, name: &str) -> bool
        ensures { result ≡ is_on ((words_of self.now).say name.now) }
    {
        match self.said(name) {
            Some(word) => word == "true",
            None => false,
        }
    }

    /// How the words name a file.
    pub fn name(&self, alloc: Global) -> Result<FileName, Misfit>
        ensures { Gives file_name_view (name_by (said_of self.now)) result }
    {
        let word = self.needed("name")?;
        if !self.has("stored") {
            return Ok(FileName::Path(word.to_string(alloc)?));
        }
        match bytes_named(alloc, word)? {
            Some(bytes) => Ok(FileName::Stored(bytes)),
            None => Err(Misfit::NoStoredName),
        }
    }
}

/// The file system that a word names.
pub fn file_system(word: &str) -> Result<FileSystem, Misfit>
    ensures { Gives (λ f. f) (file_system_named word.now) result }
{
    match word {
        "dos" => Ok(FileSystem::Dos),
        "prodos" => Ok(FileSystem::Prodos),
        _ => Err(Misfit::Value { name: "fs" }),
    }
}

/// The order that a word names as the value of an option.
pub fn order(name: &'static str, word: &str) -> Result<Order, Misfit>
    ensures { Gives (λ o. o) (order_named word.now) result }
{
    match word {
        "dos" => Ok(Order::Dos),
        "prodos" => Ok(Order::Prodos),
        "nibble" => Ok(Order::Nibble),
        _ => Err(Misfit::Value { name }),
    }
}
