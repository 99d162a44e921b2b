// ProDOS.
ghost use Rattle.std.specs.Prelude.{◌≡◌, ◌≢◌, ◌<◌, ◌≤◌, [], length, IfOk, IfErr, IfNone, IfSome, IsTrue};
ghost use Rattle.pro_dir.specs.Listed.{directory_of};
ghost use Rattle.pro_dir.specs.Within.{IsWithin};
ghost use Rattle.pro_dir.specs.Volume.{total_blocks};
ghost use Rattle.pro_format.specs.Pro.{TakesBlocks, pro_system};

use crate::places::{available_places, fixed_places, with_blocks};
use crate::volume::ProVolume;
use a2_device::{Device, Part, WalkError};
use pro_bitmap::Bitmap;
use pro_dir::VolumeDir;
use std::alloc::{AllocError, Allocator, Global};
use std::marker::Model;
use vol_format::{Format, Holder, Link, PlaceOrder};
use vol_layout::Reserved;

/// ProDOS, with the places that the owner keeps for the system.
#[derive(Drop)]
pub struct Prodos<A: Allocator = Global> {
    alloc: A,
    reserved: Reserved<A>,
}

impl<A: Allocator> Model for Prodos<A> {
    ghost use Rattle.std.specs.Prelude.{Bool, List};

    ghost Value = { List Bool };

    ghost view = { λ f. f.reserved };
}

impl<A: Allocator + Copy> Prodos<A> {
    /// ProDOS, with these places kept for the system.
    pub fn new(alloc: A, reserved: Reserved<A>) -> Prodos<A>
        ensures { result ≡ reserved }
    {
        Prodos { alloc, reserved }
    }

    /// The same format where nothing is reserved; `None` where nothing is.
    pub fn unreserved(&self) -> Option<Prodos<A>>
        ensures some { IfSome result (λ format. (self.now ≢ []) × (format ≡ [])) }
        ensures none { IfNone result (self.now ≡ []) }
    {
        if self.reserved.is_empty() {
            return None;
        }
        Some(Prodos::new(self.alloc, Reserved::none(self.alloc)))
    }

    // Which places are the system's.
    fn system(&self, directory: &VolumeDir<A>) -> Result<Vec<bool, A>, AllocError>
        requires within { IsWithin (total_blocks (directory_of directory.now).header) (directory_of directory.now) }
        requires places { TakesBlocks (total_blocks (directory_of directory.now).header) }
        ensures { IfOk result (λ table. table.items ≡ pro_system self.now (directory_of directory.now)) }
    {
        let fixed = fixed_places(self.alloc, directory, &self.reserved)?;
        Ok(with_blocks(fixed, directory.blocks()))
    }
}

impl<A: Allocator + Copy> Format for Prodos<A> {
    ghost use Rattle.pro_format.specs.Pro.{pro_meaning, directory_with};
    ghost use Rattle.pro_format.specs.ProVolume.{tree_of, map_in, system_of};
    ghost use Rattle.pro_format.specs.lemmas.ProLaws.{pro_is_readable};
    ghost use Rattle.pro_format.specs.lemmas.ProDirectory.{pro_is_directory};

    type Volume = ProVolume<A>;

    ghost meaning = { λ f. pro_meaning f };

    ghost directory = { λ f v. directory_with (system_of v) (tree_of v) (map_in v).units };

    ghost readable = { λ f. pro_is_readable f };

    ghost rooted = { λ f v. pro_is_directory f (tree_of v) (system_of v) (map_in v).units v.fitted.sound };

    fn volume<D: Device>(&self, device: &mut D) -> Result<ProVolume<A>, WalkError> {
        let directory = VolumeDir::walk(self.alloc, device)?;
        let map = Bitmap::read(self.alloc, device, directory.bitmap(), directory.total())?;
        let system = self.system(&directory)?;
        let places = available_places(self.alloc, system.as_slice())?;
        let available = PlaceOrder::new(self.alloc, places, directory.total())?;
        Ok(ProVolume {
            directory,
            map,
            system,
            available,
        })
    }

    fn entries(&self, volume: &ProVolume<A>) -> u32 {
        volume.directory.entries().len() as u32
    }

    fn root(&self, volume: &ProVolume<A>, file: u32) -> Link {
        let entry = &volume.directory.entries()[file as usize];
        pro_tree::root(volume.directory.total(), file, entry.storage(), entry.key())
    }

    fn entry_at(&self, volume: &ProVolume<A>, file: u32) -> Holder {
        let entry = &volume.directory.entries()[file as usize];
        Holder {
            entry: true,
            place: entry.place as u32,
            slot: entry.slot as u32,
        }
    }

    fn is_free(&self, volume: &ProVolume<A>, place: u32) -> bool {
        volume.map.is_free(place)
    }

    fn available(&self, volume: &ProVolume<A>, number: u32) -> Option<u32> {
        volume.available.place(number)
    }

    fn index(&self, volume: &ProVolume<A>, place: u32) -> Option<u32> {
        volume.available.number(place)
    }

    fn pointers(&self, part: &Part) -> u32 {
        pro_tree::pointer_count(part)
    }

    fn child(&self, volume: &ProVolume<A>, part: &Part, unit: &[u8], pointer: u32) -> Link {
        pro_tree::child(volume.directory.total(), part, unit, pointer)
    }
}
