// DOS 3.3.
ghost use Rattle.std.specs.Prelude.{◌≡◌, ◌≢◌, ◌<◌, ◌≤◌, [], length, IfOk, IfNone, IfSome, IsTrue, map};
ghost use Rattle.vol_layout.specs.Reserved.{is_reserved};
ghost use Rattle.dos_catalog.specs.Found.{AreOnTrack};
ghost use Rattle.dos_catalog.specs.Listed.{entries_of_catalog};
ghost use Rattle.dos_tslist.specs.Reach.{entry_pointer};
ghost use Rattle.dos_format.specs.Dos.{is_dos_system, dos_available, link_to, dos_directory};
ghost use Rattle.std.specs.Prelude.{IfErr};
ghost use Rattle.a2_device.specs.Device.{OnlyReads, unit_at};
ghost use Rattle.a2_device.specs.Reading.{met_device};
ghost use Rattle.a2_device.specs.declared.fault.Fault.{Fault};
ghost use Rattle.a2_device.specs.declared.fault.Fault.TheVariants.{Geometry};
ghost use Rattle.a2_device.specs.declared.fault.WalkError.TheVariants.{Fault as AFault};
ghost use Rattle.dos_vtoc.specs.Vtoc.{HasGeometry};

use a2_device::{Device, Fault, Part, PartKind, WalkError};
use dos_catalog::{Catalog, Entry};
use dos_tslist::{PAIRS, next, pair};
use dos_vtoc::{VTOC_PLACE, Vtoc};
use std::alloc::{AllocError, Allocator, Global};
use std::marker::Model;
use vol_format::{Format, Holder, Link, PlaceOrder};
use vol_layout::Reserved;

/// The places of a volume: 35 tracks of 16 sectors.
const PLACES: u32 = 560;

/// DOS 3.3; on a data disk, tracks 1 and 2 are for files.
pub struct Dos33<A: Allocator = Global> {
    alloc: A,
    data_disk: bool,
    reserved: Reserved<A>,
    available: PlaceOrder<A>,
}

impl<A: Allocator> Drop for Dos33<A> {
    fn drop(self) {
        let Dos33 {
            alloc: _,
            data_disk: _,
            reserved: _,
            available: _,
        } = self;
    }
}

impl<A: Allocator> Model for Dos33<A> {
    ghost use Rattle.std.specs.Prelude.{◌≡◌};
    ghost use Rattle.dos_format.specs.Dos.{DosRules, dos_available};

    ghost Value = { DosRules };

    ghost view = { λ f. record { data_disk = f.data_disk; reserved = f.reserved } };

    ghost invariant = { λ f. f.available ≡ dos_available f.data_disk f.reserved };
}

// Whether a place is one of the system's.
fn is_system<A: Allocator>(data_disk: bool, reserved: &Reserved<A>, place: u32) -> bool
    ensures { result ≡ is_dos_system data_disk reserved.now place }
{
    place < 16 || place / 16 == 17 || !data_disk && place < 48 || reserved.contains(place)
}

// The available places in their order: tracks upward, in a track sectors 15 down to 0.
fn available_places<A: Allocator + Copy>(
    alloc: A,
    data_disk: bool,
    reserved: &Reserved<A>,
) -> Result<Vec<u32, A>, AllocError>
    ensures { IfOk result (λ places. places.items ≡ dos_available data_disk reserved.now) }
{
    let mut available = Vec::new(alloc);
    for number in 0..PLACES {
        let place = 16 * (number / 16) + 15 - number % 16;
        if !is_system(data_disk, reserved, place) {
            available.push(place)?;
        }
    }
    Ok(available)
}

impl<A: Allocator + Copy> Dos33<A> {
    /// DOS 3.3, with the places that the owner keeps for the system.
    ///
    /// # Errors
    /// Want of memory alone.
    pub fn new(alloc: A, data_disk: bool, reserved: Reserved<A>) -> Result<Dos33<A>, AllocError>
        ensures { IfOk result (λ format. format ≡ record { data_disk = data_disk; reserved = reserved }) }
    {
        let places = available_places(alloc, data_disk, &reserved)?;
        let available = PlaceOrder::new(alloc, places, PLACES)?;
        Ok(Dos33 {
            alloc,
            data_disk,
            reserved,
            available,
        })
    }

    /// The same format where nothing is reserved; `None` where nothing is.
    ///
    /// # Errors
    /// Want of memory alone.
    pub fn unreserved(&self) -> Result<Option<Dos33<A>>, AllocError>
        ensures some { IfOk result (λ other. IfSome other (λ format. (self.now.reserved ≢ [])
            × (format ≡ record { data_disk = self.now.data_disk; reserved = [] }))) }
        ensures none { IfOk result (λ other. IfNone other (self.now.reserved ≡ [])) }
    {
        if self.reserved.is_empty() {
            return Ok(None);
        }
        let nothing = Reserved::none(self.alloc);
        let format = Dos33::new(self.alloc, self.data_disk, nothing)?;
        Ok(Some(format))
    }
}

// What a track and a sector name.
fn link(part: Part, pointer: Option<(u8, u8)>) -> Link
    ensures { result ≡ link_to part.file part.kind part.number pointer }
{
    match pointer {
        None => Link::Null,
        Some((track, sector)) if track > 34 || sector > 15 => Link::Wild,
        Some((track, sector)) => Link::To(Part {
            place: 16 * track as u32 + sector as u32,
            ..part
        }),
    }
}

// The track and the sector of a file's first list.
fn first_list(entry: &Entry) -> Option<(u8, u8)>
    ensures { result ≡ entry_pointer entry.now }
{
    match entry.pointer() {
        (0, _) => None,
        pointer => Some(pointer),
    }
}

/// The VTOC and the catalog of a volume.
#[derive(Drop)]
pub struct DosVolume<A: Allocator = Global> {
    vtoc: Vtoc,
    catalog: Catalog<A>,
    ghost on_track: { AreOnTrack (entries_of_catalog catalog) },
}

impl<A: Allocator> DosVolume<A> {
    ghost use Rattle.dos_format.specs.DosVolume.{vtoc_of, catalog_of};

    /// The VTOC.
    pub fn vtoc(&self) -> &Vtoc
        ensures { result.now ≡ vtoc_of self.now }
    {
        &self.vtoc
    }

    /// The catalog.
    pub fn catalog(&self) -> &Catalog<A>
        ensures { result.now ≡ catalog_of self.now }
    {
        &self.catalog
    }
}

impl<A: Allocator + Copy> Format for Dos33<A> {
    ghost use Rattle.dos_format.specs.Dos.{dos_meaning, dos_directory};
    ghost use Rattle.dos_catalog.specs.Listed.{entries_of_catalog};
    ghost use Rattle.dos_format.specs.DosVolume.{vtoc_of, catalog_of};
    ghost use Rattle.dos_format.specs.lemmas.DosLaws.{dos_is_readable};
    ghost use Rattle.dos_format.specs.lemmas.DosDirectory.{dos_is_directory};

    type Volume = DosVolume<A>;

    ghost meaning = { λ f. dos_meaning f.data_disk f.reserved };

    ghost directory = { λ f v. dos_directory f.data_disk f.reserved (vtoc_of v) (entries_of_catalog (catalog_of v)) };

    ghost readable = { λ f. dos_is_readable f.data_disk f.reserved };

    ghost rooted = { λ f v.
        dos_is_directory f.data_disk f.reserved (vtoc_of v) (entries_of_catalog (catalog_of v)) v.on_track };

    fn volume<D: Device>(&self, device: &mut D) -> Result<DosVolume<A>, WalkError> {
        let vtoc = read_vtoc(device)?;
        let catalog = Catalog::walk(self.alloc, device, &vtoc)?;
        Ok(DosVolume { vtoc, catalog })
    }

    fn entries(&self, volume: &DosVolume<A>) -> u32 {
        volume.catalog.entries().len() as u32
    }

    fn root(&self, volume: &DosVolume<A>, file: u32) -> Link {
        let part = Part {
            file,
            kind: PartKind::List,
            number: 0,
            place: 0,
        };
        link(part, first_list(&volume.catalog.entries()[file as usize]))
    }

    fn entry_at(&self, volume: &DosVolume<A>, file: u32) -> Holder {
        let entry = &volume.catalog.entries()[file as usize];
        Holder {
            entry: true,
            place: entry.place,
            slot: entry.slot,
        }
    }

    fn is_free(&self, volume: &DosVolume<A>, place: u32) -> bool {
        volume.vtoc.is_free(place)
    }

    fn available(&self, _volume: &DosVolume<A>, number: u32) -> Option<u32> {
        self.available.place(number)
    }

    fn index(&self, _volume: &DosVolume<A>, place: u32) -> Option<u32> {
        self.available.number(place)
    }

    fn pointers(&self, part: &Part) -> u32 {
        match part.kind {
            PartKind::List => PAIRS + 1,
            _ => 0,
        }
    }

    fn child(&self, _volume: &DosVolume<A>, part: &Part, unit: &[u8], pointer: u32) -> Link {
        if part.kind != PartKind::List {
            return Link::Null;
        }
        if pointer == PAIRS {
            let list = Part {
                number: part.number + 1,
                ..*part
            };
            return link(list, next(unit));
        }
        let body = Part {
            kind: PartKind::Body,
            number: PAIRS * part.number + pointer,
            ..*part
        };
        link(body, pair(unit, pointer))
    }
}

/// The VTOC of a volume, which leads to its catalog.
///
/// # Errors
/// `Fault` with `Geometry` of place 272 where the VTOC tells another geometry; `Device` where it can't be read.
pub fn read_vtoc<D: Device>(device: &mut D) -> Result<Vtoc, WalkError>
    requires unit { (D.state device.old).unit_size ≡ 256 }
    requires places { (D.state device.old).places ≡ 560 }

    ensures device { OnlyReads (met_device result) (D.state device.old) (D.state device.new) }
    ensures value { IsTrue (D.state device.old).honest
        → IfOk result (λ vtoc. (vtoc ≡ unit_at (D.state device.old).store 272) × HasGeometry vtoc) }
    ensures refused { IsTrue (D.state device.old).honest → IfErr result (λ e. (fault : Fault) → e ≡ AFault fault
        → (fault ≡ Geometry 272) × ¬ HasGeometry (unit_at (D.state device.old).store 272)) }
{
    let mut unit = [0; 256];
    if device.read(VTOC_PLACE, &mut unit).is_err() {
        return Err(WalkError::Device);
    }
    match Vtoc::read(&unit) {
        Ok(vtoc) => Ok(vtoc),
        Err(fault) => Err(WalkError::Fault(fault)),
    }
}
