// The job that tells the entries of a volume as data.
ghost use Rattle.std.specs.Prelude.{◌≡◌, IsTrue};
ghost use Rattle.vol_format.specs.Fits.{Fits};
ghost use Rattle.shop_reads.specs.CatalogReply.{TellsListing};
ghost use Rattle.shop_reads.specs.EntriesReply.{IsEntriesTold, list_status, style_of};
ghost use Rattle.shop_reads.specs.GoingOn.{FailsForLackBy, ReadsBy, list_going};
ghost use Rattle.file_listings.specs.Known.{facts_in};
ghost use Rattle.file_listings.specs.declared.style.Style.TheVariants.{Entries};

use crate::known::{FactsError, Known, known_of};
use crate::listing::{ShownFormat, refusal_reply};
use a2_device::Device;
use file_cmds::read_volume;
use file_listings::{EntryStyle, Style};
use shop_jobs::{ListForm, ListOptions};
use shop_replies::{Failure, Refusal, Reply, Status};
use std::alloc::Global;

// How entries are told that are asked for so.
fn style_of(options: ListOptions) -> EntryStyle
    ensures { result ≡ style_of options }
{
    match options.form {
        ListForm::Names if options.digests => EntryStyle::Sums,
        ListForm::Names => EntryStyle::Names,
        ListForm::Json => EntryStyle::Json,
        ListForm::Csv => EntryStyle::Csv {
            digests: options.digests,
        },
    }
}

// The status of a list in which each file has a digest or one has none.
fn list_status(complete: bool) -> Status
    ensures { result ≡ list_status complete }
{
    if complete {
        Status::Done
    } else {
        Status::Wrong
    }
}

// The entries of a volume of whose files this is known.
fn known_reply<F: ShownFormat>(
    alloc: Global,
    format: &F,
    volume: F::Volume,
    options: ListOptions,
    known: Known,
) -> Reply
    ensures { TellsListing (list_status known.complete) (Entries (style_of options)) (F.form format.now)
        (F.directory format.now volume) (facts_in known.files) result }
{
    let Known { files, complete } = known;
    match format.listing(alloc, volume, Style::Entries(style_of(options)), files) {
        Ok(told) => Reply::told(list_status(complete), told),
        Err(_) => Reply::failed(Failure::Memory),
    }
}

/// The entries of the volume on a device, as data. A file that can't be read is told so, and the others are read all
/// the same.
pub fn entries_reply<D: Device, F: ShownFormat>(
    alloc: Global,
    device: &mut D,
    format: &F,
    options: ListOptions,
) -> Reply
    requires fits { Fits (F.meaning format.now) (D.state device.old) }
    ensures reads { ReadsBy (list_going options) result (D.state device.old) (D.state device.new) }
    ensures told { IsTrue (D.state device.old).honest
        → FailsForLackBy (list_going options) result (D.state device.old) (D.state device.new)
        → IsEntriesTold options (F.form format.now) (F.files format.now) (F.meaning format.now)
        (D.state device.old) result }
{
    let volume = match read_volume(device, format) {
        Ok(volume) => volume,
        Err(error) => return refusal_reply(error),
    };
    match known_of(alloc, device, format, &volume, options) {
        Ok(known) => known_reply(alloc, format, volume, options, known),
        Err(FactsError::TooLarge) => Reply::refused(Refusal::TooLarge),
        Err(FactsError::Memory) => Reply::failed(Failure::Memory),
    }
}
