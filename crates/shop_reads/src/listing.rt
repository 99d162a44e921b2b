// The job that lists the files of a volume.
ghost use Rattle.std.specs.Prelude.{◌≡◌, [], IfOk, IsTrue, string_bytes};
ghost use Rattle.file_listings.specs.DosEntries.{directory_text as dos_text};
ghost use Rattle.file_listings.specs.Known.{facts_in};
ghost use Rattle.file_listings.specs.declared.style.Style.TheVariants.{Catalog as AsCatalog};
ghost use Rattle.shop_replies.specs.declared.reply.Status.TheVariants.{Done as IsDone};
ghost use Rattle.a2_device.specs.Device.{OnlyReads};
ghost use Rattle.shop_reads.specs.CatalogReply.{IsListed, TellsListing};
ghost use Rattle.shop_volumes.specs.TellingFailures.{FailsForLack, tells_device};
ghost use Rattle.shop_reads.specs.Refusals.{reply_to_refusal};
ghost use Rattle.vol_format.specs.Fits.{Fits};

use crate::plan_words::steps_text;
use a2_device::Device;
use dos_format::{Dos33, DosVolume};
use file_cmds::{CmdError, listing_of, read_volume};
use file_formats::FileFormat;
use file_listings::{
    KnownFiles, ProLines, ProSteps, Step, Style, dos_entries_text, dos_listing_text,
};
use pro_format::{ProVolume, Prodos};
use shop_replies::{Failure, Refusal, Reply, Status, Told};
use std::alloc::{AllocError, Global};
use vol_format::Format;
use vol_layout::PlaceForm;

/// The reply to a command's refusal.
pub fn refusal_reply(error: CmdError) -> Reply
    ensures { result ≡ reply_to_refusal error }
{
    match error {
        CmdError::Check => Reply::refused(Refusal::Check),
        CmdError::NotFound => Reply::refused(Refusal::NotFound),
        CmdError::Device => Reply::failed(Failure::Device),
        CmdError::Memory => Reply::failed(Failure::Memory),
    }
}

// The text of the listing of a DOS 3.3 volume that was read.
fn dos_listing(
    alloc: Global,
    format: &Dos33,
    volume: &DosVolume,
    style: Style,
    known: &KnownFiles,
) -> Result<String, AllocError>
    ensures { IfOk result (λ text. string_bytes text
        ≡ dos_text style (⟦<Dos33 as Format>⟧.directory format.now volume.now) (facts_in known.now)) }
{
    let listing = listing_of(alloc, format, volume)?;
    match style {
        Style::Catalog => dos_listing_text(alloc, &listing),
        Style::Entries(style) => dos_entries_text(alloc, style, &listing, known),
    }
}

/// A format whose volumes are told of: what its places are called, and how the listing of a volume and a plan are told.
pub trait ShownFormat: FileFormat + Drop {
    ghost use Rattle.std.specs.Prelude.{◌≡◌, ◌<◌, All, IfOk, IfNone, IfSome};
    ghost use Rattle.vol_layout.specs.declared.form.PlaceForm.{PlaceForm};
    ghost use Rattle.vol_format.specs.Directory.{entries};
    ghost use Rattle.file_listings.specs.Known.{facts_in};
    ghost use Rattle.shop_replies.specs.Reply.{told_text};
    ghost use Rattle.shop_reads.specs.CatalogReply.{text_by};
    ghost use Rattle.shop_reads.specs.PlanWords.{TellsSteps};
    ghost use Rattle.shop_reads.specs.FileSystems.{file_system_of};
    ghost use Rattle.shop_reads.specs.Unreserved.{IsUnreserved};
    ghost use Rattle.shop_replies.specs.Volume.{HasUnitsOf};
    ghost use Rattle.a2_device.specs.Device.{DeviceState};
    ghost use Rattle.vol_format.specs.Fits.{Fits};

    ghost form: { Self → PlaceForm };

    ghost unreserved: { Self → Self };

    /// What places are called.
    fn form(&self) -> PlaceForm
        ensures { result ≡ form self.now };

    /// The listing of a volume that was read, with what is known of the files of its entries.
    ///
    /// # Errors
    /// Want of memory alone.
    fn listing(
        &self,
        alloc: Global,
        volume: Self::Volume,
        style: Style,
        known: KnownFiles,
    ) -> Result<Told, AllocError>
        ensures { IfOk result (λ told. told_text told
            ≡ text_by style (form self.now) (Self.directory self.now volume) (facts_in known)) };

    /// The steps of a plan of a volume that was read, in words, or want of memory.
    fn plan(&self, alloc: Global, volume: Self::Volume, steps: Vec<Step>) -> Reply
        requires { All (λ step. step.part.file < entries (Self.directory self.now volume)) steps.items }
        ensures { TellsSteps (form self.now) (Self.files self.now)
            (Self.directory self.now volume) steps.items result };

    /// The same format where nothing is reserved; `None` where nothing is.
    ///
    /// # Errors
    /// Want of memory alone.
    fn unreserved(&self) -> Result<Option<Self>, AllocError>
        ensures some { IfOk result (λ other. IfSome other (λ format. format ≡ unreserved self.now)) }
        ensures none { IfOk result (λ other. IfNone other (self.now ≡ unreserved self.now)) };

    ghost reserving: { (format : Self) → IsUnreserved (Self.meaning format) (Self.meaning (unreserved format)) };

    ghost fitting: { (format : Self) (device : DeviceState) → HasUnitsOf (file_system_of (form format)) device
        → Fits (Self.meaning format) device };
}

impl ShownFormat for Dos33 {
    ghost use Rattle.std.specs.Prelude.{[]};
    ghost use Rattle.vol_layout.specs.declared.form.PlaceForm.TheVariants.{Sector};
    ghost use Rattle.shop_reads.specs.lemmas.Reserving.{dos_unreserved};

    ghost form = { λ f. Sector };

    ghost unreserved = { λ f. record { data_disk = f.data_disk; reserved = [] } };

    ghost reserving = { λ f. dos_unreserved f.data_disk f.reserved };

    ghost fitting = { λ f device units. record { unit = units.0; places = units.1 } };

    fn form(&self) -> PlaceForm {
        PlaceForm::Sector
    }

    fn listing(
        &self,
        alloc: Global,
        volume: DosVolume,
        style: Style,
        known: KnownFiles,
    ) -> Result<Told, AllocError> {
        let text = dos_listing(alloc, self, &volume, style, &known)?;
        Ok(Told::Text(text))
    }

    fn plan(&self, alloc: Global, volume: DosVolume, steps: Vec<Step>) -> Reply {
        match steps_text(alloc, self, &volume, PlaceForm::Sector, steps.as_slice()) {
            Ok(text) => Reply::done(text),
            Err(_) => Reply::failed(Failure::Memory),
        }
    }

    fn unreserved(&self) -> Result<Option<Dos33>, AllocError> {
        Dos33::unreserved(self)
    }
}

impl ShownFormat for Prodos {
    ghost use Rattle.std.specs.Prelude.{[]};
    ghost use Rattle.vol_layout.specs.declared.form.PlaceForm.TheVariants.{Block};
    ghost use Rattle.shop_reads.specs.lemmas.Reserving.{pro_unreserved};

    ghost form = { λ f. Block };

    ghost unreserved = { λ f. [] };

    ghost reserving = { λ f. pro_unreserved f };

    ghost fitting = { λ f device units. record { unit = units.0; places = (units.1, units.2) } };

    fn form(&self) -> PlaceForm {
        PlaceForm::Block
    }

    fn listing(
        &self,
        alloc: Global,
        volume: ProVolume,
        style: Style,
        known: KnownFiles,
    ) -> Result<Told, AllocError> {
        let lines = ProLines::new(alloc, style, volume, known)?;
        Ok(Told::Listing(lines))
    }

    fn plan(&self, alloc: Global, volume: ProVolume, steps: Vec<Step>) -> Reply {
        match ProSteps::new(alloc, volume, steps) {
            Ok(lines) => Reply::plan(lines),
            Err(_) => Reply::failed(Failure::Memory),
        }
    }

    fn unreserved(&self) -> Result<Option<Prodos>, AllocError> {
        Ok(Prodos::unreserved(self))
    }
}

// The listing of a volume that was read, as its file system does.
fn catalog_reply<F: ShownFormat>(alloc: Global, format: &F, volume: F::Volume) -> Reply
    ensures { TellsListing IsDone AsCatalog (F.form format.now) (F.directory format.now volume) [] result }
{
    match format.listing(alloc, volume, Style::Catalog, KnownFiles::none(alloc)) {
        Ok(told) => Reply::told(Status::Done, told),
        Err(_) => Reply::failed(Failure::Memory),
    }
}

/// The listing of the volume on a device, as its file system does.
pub fn listing_reply<D: Device, F: ShownFormat>(alloc: Global, device: &mut D, format: &F) -> Reply
    requires fits { Fits (F.meaning format.now) (D.state device.old) }
    ensures reads { OnlyReads (tells_device result) (D.state device.old) (D.state device.new) }
    ensures told { IsTrue (D.state device.old).honest → FailsForLack (D.state device.old) result
        → IsListed (F.form format.now) (F.meaning format.now) (D.state device.old) result }
{
    match read_volume(device, format) {
        Ok(volume) => catalog_reply(alloc, format, volume),
        Err(error) => refusal_reply(error),
    }
}
