//! What a command reads: its image, how that is read, and what it reads beside it.
ghost use Rattle.std.specs.Prelude.{◌≡◌, codes, IfErr, IfOk, option_and_then, Some};
ghost use Rattle.shop_jobs.specs.Input.{beside_view, reading_view, source_view};
ghost use Rattle.shop_words.specs.Given.{said_of, words_of};
ghost use Rattle.shop_words.specs.Gives.{Gives};
ghost use Rattle.shop_words.specs.Job.{
  beside_by,
  file_system_by,
  names_directory,
  order_by,
  order_meant,
  other_named as names_other,
  other_order,
  prodos_by,
  reading_by,
  source_by,
  source_named,
  volume_by,
};
ghost use Rattle.shop_words.specs.declared.table.Verb.TheVariants as verbs;

use crate::creating::system_in;
use crate::given::{Given, file_system, order};
use crate::misfit::Misfit;
use crate::table::{Reading, Verb};
use shop_jobs::{Beside, FileSystem, ImageReading, OrderSaid, Source, VolumeReading};
use std::alloc::{AllocError, Global};

impl Reading {
    // What a word says of the order of an image.
    fn order_meant(self, name: &'static str, word: &str) -> Result<OrderSaid, Misfit>
        ensures { Gives (λ o. o) (order_meant self word.now) result }
    {
        match (self, word) {
            (
                Reading::Volume(_) | Reading::Prodos(_) | Reading::Order(_) | Reading::Bare(_),
                "auto",
            ) => Ok(OrderSaid::ByReading),
            (Reading::Volume(_) | Reading::Prodos(_) | Reading::Order(_), "2img") => {
                Ok(OrderSaid::ByContainer)
            }
            _ => Ok(OrderSaid::Is(order(name, word)?)),
        }
    }
}

impl<'a> Given<'_, 'a> {
    // The order of the image.
    fn order(&self) -> Result<OrderSaid, Misfit>
        ensures { Gives (λ o. o) (order_by (words_of self.now).form.reading (said_of self.now)) result }
    {
        match self.order_said() {
            Some(word) => self.form.reading.order_meant("order", word),
            None => Err(Misfit::Missing { name: "order" }),
        }
    }

    // Whether a directory of the volume is named that files are added to.
    fn names_directory(&self) -> bool
        ensures { result ≡ names_directory (words_of self.now).form.verb ((words_of self.now).say (codes "into")) }
    {
        match self.form.verb {
            Verb::Add => self.said("into").is_some(),
            _ => false,
        }
    }

    /// The file system of the volume, where it is not left to the image.
    pub fn file_system(&self) -> Result<Option<FileSystem>, Misfit>
        ensures { Gives (λ f. f) (file_system_by (words_of self.now).form.verb (said_of self.now)) result }
    {
        match self.file_system_said() {
            Some("auto") if self.names_directory() => Ok(Some(FileSystem::Prodos)),
            Some("auto") => Ok(None),
            Some(word) => Ok(Some(file_system(word)?)),
            None => Err(Misfit::Missing { name: "fs" }),
        }
    }

    // The same of a volume that must be one of ProDOS.
    fn prodos(&self) -> Result<Option<FileSystem>, Misfit>
        ensures { Gives (λ f. f) (prodos_by (said_of self.now)) result }
    {
        match self.file_system_said() {
            None | Some("prodos") | Some("auto") => Ok(Some(FileSystem::Prodos)),
            Some(_) => Err(Misfit::Value { name: "fs" }),
        }
    }

    // How a volume of this file system is read.
    fn volume(&self, alloc: Global, file_system: Option<FileSystem>) -> Result<ImageReading, Misfit>
        ensures { Gives reading_view (volume_by (words_of self.now).form.reading (Some file_system) (said_of self.now))
            result }
    {
        let order = self.order()?;
        Ok(ImageReading::Volume(VolumeReading {
            file_system,
            order,
            data_disk: self.has("data-disk"),
            reserve: self.text(alloc, "reserve")?,
        }))
    }

    /// How the image is read.
    pub fn reading(&self, alloc: Global) -> Result<ImageReading, Misfit>
        ensures { Gives reading_view
            (reading_by (words_of self.now).form.verb (words_of self.now).form.reading (said_of self.now)) result }
    {
        match self.form.reading {
            Reading::Nothing => Ok(ImageReading::Bytes),
            Reading::Volume(_) => {
                let file_system = self.file_system()?;
                self.volume(alloc, file_system)
            }
            Reading::Prodos(_) => {
                let file_system = self.prodos()?;
                self.volume(alloc, file_system)
            }
            Reading::Order(_) | Reading::Bare(_) => Ok(ImageReading::Sectors(self.order()?)),
        }
    }
}

// The image at a path, `-` for standard input.
fn source_named(alloc: Global, path: &str) -> Result<Source, AllocError>
    ensures { IfOk result (λ source. source_view source ≡ source_named path.now) }
{
    if path == "-" {
        return Ok(Source::StandardInput);
    }
    Ok(Source::File(path.to_string(alloc)?))
}

/// Where the image is, or what a survey looks at; a volume is made of no image.
pub fn source_in(alloc: Global, verb: Verb, given: &Given<'_, '_>) -> Result<Source, Misfit>
    ensures { Gives source_view (source_by verb (said_of given.now)) result }
{
    let path = match verb {
        Verb::Create => return Ok(Source::Nothing),
        Verb::Survey => given.needed("path")?,
        _ => given.needed("image")?,
    };
    Ok(source_named(alloc, path)?)
}

// The path of the other image of a comparison; not both are standard input.
fn other_named<'a>(given: &Given<'_, 'a>) -> Result<&'a str, Misfit>
    ensures { Gives (λ s. s.now) (names_other (said_of given.now (codes "image")) (said_of given.now (codes "other")))
        result }
{
    let image = given.needed("image")?;
    let other = given.needed("other")?;
    if image == "-" && other == "-" {
        return Err(Misfit::TwoInputs);
    }
    Ok(other)
}

// The order of the other image, that of the image where none is said.
fn other_order(given: &Given<'_, '_>) -> Result<OrderSaid, Misfit>
    ensures { Gives (λ o. o) (other_order (words_of given.now).form.reading (said_of given.now (codes "other-order"))
        (said_of given.now (codes "order"))) result }
{
    match given.said("other-order") {
        Some(word) => given.form.reading.order_meant("other-order", word),
        None => given.order(),
    }
}

// The other image of a comparison.
fn other_in(alloc: Global, given: &Given<'_, '_>) -> Result<Beside, Misfit>
    ensures { Gives beside_view (beside_by verbs.Compare (words_of given.now).form.reading (said_of given.now)) result }
{
    let other = other_named(given)?;
    let order = other_order(given)?;
    Ok(Beside::Image {
        source: source_named(alloc, other)?,
        order,
    })
}

/// What is read beside the image.
pub fn beside_in(alloc: Global, verb: Verb, given: &Given<'_, '_>) -> Result<Beside, Misfit>
    ensures { Gives beside_view (beside_by verb (words_of given.now).form.reading (said_of given.now)) result }
{
    match verb {
        Verb::Compare => other_in(alloc, given),
        Verb::Create => system_in(alloc, given),
        Verb::Verify | Verb::Save => Ok(Beside::File(given.needed_text(alloc, "from")?)),
        Verb::Add => Ok(Beside::Folder(given.needed_text(alloc, "from")?)),
        _ => Ok(Beside::Nothing),
    }
}
