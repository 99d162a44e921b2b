// The sectors of an image in another order.
ghost use Rattle.std.specs.Prelude.{◌≡◌, ◌≢◌, ℕ, ◌<◌, Err, length, IsOk, IfOk, IfErr, OnOk, OnErr};
ghost use Rattle.a2_image.specs.Image.{IsOfDisk, IsDisk, sectors_by};
ghost use Rattle.a2_image.specs.Tracks.{track_of};
ghost use Rattle.a2_image.specs.Converting.{HasAll, LacksSome, RefusesToConvert, AreContents, MakesTrack};

use crate::nibble::made_fields;
use crate::part::replace;
use crate::plain::write_plain;
use crate::{Image, ImageError, SECTOR_BYTES};
use a2_device::{DISK_BLOCKS, IMAGE_BYTES, NIBBLE_BYTES, Order, SECTORS, TRACKS};
use a2_nibble::{TRACK_LEN, make_track};
use std::alloc::Allocator;

// The sectors of a disk.
const SECTOR_COUNT: u16 = 560;

impl<A: Allocator + Copy> Image<A> {
    /// The image's sectors in another order. In nibble order each track is made anew, with this volume number.
    ///
    /// # Errors
    /// `Length` where the image has not 280 blocks; `Memory`; `NoSector` where it lacks a sector.
    pub fn convert(&self, order: Order, volume: u8) -> Result<Image<A>, ImageError>
        ensures order { IfOk result (λ image. image.order ≡ order) }
        ensures disk { IfOk result (λ image. IsOfDisk image) }
        ensures sectors { IfOk result (λ image. image.sectors ≡ self.now.sectors) }
        ensures there { IsOk result → HasAll self.now }
        ensures made { IfOk result (λ image. order ≡ Order.Nibble → (track : ℕ) → track < 35
            → MakesTrack (track_of image.bytes track) volume track self.now.sectors) }
        ensures refused { IfErr result (λ e. RefusesToConvert self.now e) }
    {
        if self.blocks() != DISK_BLOCKS {
            return Err(ImageError::Length);
        }
        if order.is_nibble() {
            self.to_nibble(volume)
        } else {
            self.to_plain(order)
        }
    }

    // The sectors one behind the other.
    fn to_plain(&self, order: Order) -> Result<Image<A>, ImageError>
        requires plain { order ≢ Order.Nibble }
        requires disk { IsOfDisk self.now }
        requires sectors { IsDisk self.now.sectors }
        ensures order { IfOk result (λ image. image.order ≡ order) }
        ensures disk { IfOk result (λ image. IsOfDisk image) }
        ensures sectors { IfOk result (λ image. image.sectors ≡ self.now.sectors) }
        ensures there { IsOk result → HasAll self.now }
        ensures refused { IfErr result (λ e. RefusesToConvert self.now e) }
    {
        let alloc = self.allocator();
        let mut bytes = vec![in alloc; 0; IMAGE_BYTES]?;
        self.fill_plain(order, bytes.as_mut_slice())?;
        Ok(Image::from_kept(bytes, order, Vec::new(alloc)))
    }

    // The sectors on tracks that are made anew.
    fn to_nibble(&self, volume: u8) -> Result<Image<A>, ImageError>
        requires disk { IsOfDisk self.now }
        requires sectors { IsDisk self.now.sectors }
        ensures order { IfOk result (λ image. image.order ≡ Order.Nibble) }
        ensures disk { IfOk result (λ image. IsOfDisk image) }
        ensures sectors { IfOk result (λ image. image.sectors ≡ self.now.sectors) }
        ensures there { IsOk result → HasAll self.now }
        ensures made { IfOk result (λ image. (track : ℕ) → track < 35
            → MakesTrack (track_of image.bytes track) volume track self.now.sectors) }
        ensures refused { IfErr result (λ e. RefusesToConvert self.now e) }
    {
        let alloc = self.allocator();
        let fields = made_fields(alloc, volume)?;
        let mut bytes = vec![in alloc; 0; NIBBLE_BYTES]?;
        self.fill_tracks(volume, bytes.as_mut_slice())?;
        Ok(Image::from_kept(bytes, Order::Nibble, fields))
    }
}

impl<A: Allocator> Image<A> {
    // Writes the sectors one behind the other.
    fn fill_plain(&self, order: Order, bytes: &mut [u8]) -> Result<(), ImageError>
        requires disk { IsOfDisk self.now }
        requires sectors { IsDisk self.now.sectors }
        requires whole { length bytes.old ≡ 143360 }
        ensures sectors { OnOk result (sectors_by order bytes.new ≡ self.now.sectors) }
        ensures there { OnOk result (HasAll self.now) }
        ensures err { OnErr result (result ≡ Err ImageError.NoSector) }
        ensures none { OnErr result (LacksSome self.now) }
    {
        let mut content = [0; SECTOR_BYTES];
        for number in 0..SECTOR_COUNT {
            let (track, sector) = ((number / 16) as u8, (number % 16) as u8);
            self.read(track, sector, &mut content)?;
            write_plain(bytes, order, track, sector, &content);
        }
        Ok(())
    }

    // Writes the sectors on made tracks.
    fn fill_tracks(&self, volume: u8, bytes: &mut [u8]) -> Result<(), ImageError>
        requires disk { IsOfDisk self.now }
        requires whole { length bytes.old ≡ 232960 }
        ensures made { OnOk result ((track : ℕ) → track < 35
            → MakesTrack (track_of bytes.new track) volume track self.now.sectors) }
        ensures err { OnErr result (result ≡ Err ImageError.NoSector) }
        ensures none { OnErr result (LacksSome self.now) }
    {
        let mut contents = [[0; SECTOR_BYTES]; a2_nibble::SECTORS];
        let mut nibbles = [0; TRACK_LEN];
        for track in 0..TRACKS {
            self.read_track(track, &mut contents)?;
            make_track(volume, track, &contents, &mut nibbles);
            replace(bytes, TRACK_LEN * usize::from(track), &nibbles);
        }
        Ok(())
    }

    // Copies the sectors of a track.
    fn read_track(
        &self,
        track: u8,
        contents: &mut [[u8; SECTOR_BYTES]; a2_nibble::SECTORS],
    ) -> Result<(), ImageError>
        requires disk { IsOfDisk self.now }
        requires exists { track < 35 }
        ensures are { OnOk result (AreContents self.now.sectors track contents.new) }
        ensures err { OnErr result (result ≡ Err ImageError.NoSector) }
        ensures none { OnErr result (LacksSome self.now) }
    {
        for sector in 0..SECTORS {
            self.read(track, sector, &mut contents[usize::from(sector)])?;
        }
        Ok(())
    }
}
