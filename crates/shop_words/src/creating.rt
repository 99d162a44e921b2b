//! How a volume is made by `create`.
ghost use Rattle.std.specs.Prelude.{◌≡◌, codes, option_and_then, option_map};
ghost use Rattle.shop_jobs.specs.Input.{beside_view};
ghost use Rattle.shop_jobs.specs.Job.{creation_view, new_volume_view};
ghost use Rattle.shop_words.specs.Given.{said_of, words_of};
ghost use Rattle.shop_words.specs.Gives.{Gives};
ghost use Rattle.shop_words.specs.Job.{
  beside_by,
  blocks_said,
  boot_said,
  creation_by,
  file_system_named,
  new_order_by,
  new_volume_of,
  new_volume_words,
  order_said,
  usual_order as order_for,
};
ghost use Rattle.shop_words.specs.declared.table.Verb.TheVariants as verbs;

use crate::converting::volume_number;
use crate::given::{Given, file_system, order};
use crate::misfit::Misfit;
use crate::reading::number_named;
use a2_device::Order;
use shop_jobs::{Beside, CreateOptions, FileSystem, NewVolume, OrderSaid, Source};
use std::alloc::Global;

/// The fewest blocks of a ProDOS volume, the most, and those of a disk.
const FEWEST_BLOCKS: u64 = 16;

const MOST_BLOCKS: u64 = 65_535;

const DISK_BLOCKS: u16 = 280;

// How many blocks a new volume has, those of a disk where none are said.
fn blocks_said(word: Option<&str>) -> Result<u16, Misfit>
    ensures { Gives (λ b. b) (blocks_said (option_map (λ s. s.now) word.entry)) result }
{
    let Some(word) = word else {
        return Ok(DISK_BLOCKS);
    };
    match number_named(word, MOST_BLOCKS) {
        Some(blocks) if blocks >= FEWEST_BLOCKS => Ok(blocks as u16),
        _ => Err(Misfit::Value { name: "blocks" }),
    }
}

// The order of the image of a new volume where none is said.
fn usual_order(file_system: FileSystem) -> Order
    ensures { result ≡ order_for file_system }
{
    match file_system {
        FileSystem::Dos => Order::Dos,
        FileSystem::Prodos => Order::Prodos,
    }
}

// The order of the image of a new volume.
fn order_said(file_system: FileSystem, word: Option<&str>) -> Result<Order, Misfit>
    ensures { Gives (λ o. o) (order_said file_system (option_map (λ s. s.now) word.entry)) result }
{
    match word {
        Some(word) => order("order", word),
        None => Ok(usual_order(file_system)),
    }
}

// The image whose system is copied, where one is said; to a data disk none is.
fn boot_said<'a>(data_disk: bool, boot: Option<&'a str>) -> Result<Option<&'a str>, Misfit>
    ensures { Gives (λ b. option_map (λ s. s.now) b)
        (boot_said data_disk (option_map (λ s. s.now) boot.entry)) result }
{
    match (data_disk, boot) {
        (true, Some(_)) => Err(Misfit::BootOfDataDisk),
        (_, boot) => Ok(boot),
    }
}

// A DOS 3.3 disk, of which no blocks, no name and no date are said.
fn dos_volume_in(given: &Given<'_, '_>) -> Result<NewVolume, Misfit>
    ensures { Gives new_volume_view (new_volume_of (new_volume_words (said_of given.now)) FileSystem.Dos) result }
{
    let data_disk = given.has("data-disk");
    match (given.said("blocks"), given.said("name"), given.said("date")) {
        (None, None, None) => Ok(NewVolume::Dos { data_disk }),
        (Some(_), _, _) => Err(Misfit::OfProdos { name: "blocks" }),
        (None, Some(_), _) => Err(Misfit::OfProdos { name: "name" }),
        (None, None, Some(_)) => Err(Misfit::OfProdos { name: "date" }),
    }
}

// A ProDOS volume.
fn prodos_volume_in(alloc: Global, given: &Given<'_, '_>) -> Result<NewVolume, Misfit>
    ensures { Gives new_volume_view (new_volume_of (new_volume_words (said_of given.now)) FileSystem.Prodos) result }
{
    let blocks = blocks_said(given.said("blocks"))?;
    Ok(NewVolume::Prodos {
        blocks,
        name: given.text(alloc, "name")?,
        date: given.text(alloc, "date")?,
    })
}

// A new volume of a file system.
fn volume_in(
    alloc: Global,
    given: &Given<'_, '_>,
    file_system: FileSystem,
) -> Result<NewVolume, Misfit>
    ensures { Gives new_volume_view (new_volume_of (new_volume_words (said_of given.now)) file_system) result }
{
    match file_system {
        FileSystem::Dos => dos_volume_in(given),
        FileSystem::Prodos => prodos_volume_in(alloc, given),
    }
}

// The file system of a new volume.
fn file_system_in(given: &Given<'_, '_>) -> Result<FileSystem, Misfit>
    ensures { Gives (λ f. f) (option_and_then file_system_named (said_of given.now (codes "fs"))) result }
{
    match given.file_system_said() {
        Some(word) => file_system(word),
        None => Err(Misfit::Missing { name: "fs" }),
    }
}

// The order of its image.
fn order_in(given: &Given<'_, '_>) -> Result<Order, Misfit>
    ensures { Gives (λ o. o) (new_order_by (said_of given.now)) result }
{
    let file_system = file_system_in(given)?;
    order_said(file_system, given.order_said())
}

/// The image whose system is copied to a new volume, where one is said.
pub fn system_in(alloc: Global, given: &Given<'_, '_>) -> Result<Beside, Misfit>
    ensures { Gives beside_view (beside_by verbs.Create (words_of given.now).form.reading (said_of given.now)) result }
{
    let Some(boot) = boot_said(given.has("data-disk"), given.said("boot"))? else {
        return Ok(Beside::Nothing);
    };
    let order = order_in(given)?;
    Ok(Beside::Image {
        source: Source::File(boot.to_string(alloc)?),
        order: OrderSaid::Is(order),
    })
}

/// How a new volume is made.
pub fn create_in(alloc: Global, given: &Given<'_, '_>) -> Result<CreateOptions, Misfit>
    ensures { Gives creation_view (creation_by (said_of given.now)) result }
{
    let file_system = file_system_in(given)?;
    let order = order_said(file_system, given.order_said())?;
    let number = volume_number(given.said("volume"))?;
    let volume = volume_in(alloc, given, file_system)?;
    Ok(CreateOptions {
        volume,
        order,
        number,
    })
}
