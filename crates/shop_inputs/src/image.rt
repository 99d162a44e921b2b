// The image of a job, open.
ghost use Rattle.std.specs.Prelude.{
  ◌≡◌,
  ◌≢◌,
  ◌↔◌,
  ◌⊎◌,
  ◌+◌,
  IfErr,
  IfOk,
  IfSome,
  IsErrOf,
  IsTrue,
  OnErr,
  false,
  take,
};
ghost use Rattle.shop_host.specs.Reading.{IsOpened, IsUnopened};
ghost use Rattle.shop_host.specs.Runs.{IsLooking};
ghost use Rattle.shop_host.specs.State.{HostState};
ghost use Rattle.shop_replies.specs.Reading.{IsReadFailure};
ghost use Rattle.shop_replies.specs.Volume.{HasUnitsOf, kind_of};
ghost use Rattle.a2_media.specs.Window.{image_extent};
ghost use Rattle.shop_inputs.specs.Images.{
  AreUnitsOf,
  IsCause,
  IsFile,
  IsFileAt,
  IsReadingOf,
  StandsInItsFile,
  lock_for,
  rest_of,
  use_alone,
};

use a2_device::Device;
use a2_media::{Extent, FileDevice, FileError, PositionedFile, UnitKind, Window};
use shop_host::{Access, Host, Lock, OpenFault, front_of, front_of_input, is_held, open_shared};
use shop_jobs::{FileSystem, VolumeOptions};
use shop_replies::Failure;
use std::fs::Permissions;
use std::io;
use std::os::unix::fs::PermissionsExt;

/// Why the file of an image is not opened.
#[derive(Clone, Copy)]
pub enum ImageFault {
    /// The system does not open it.
    Unopened,
    /// Another program works on it: it holds the lock.
    Held,
    /// Another file has taken its place since it was opened.
    Replaced,
}

/// The units of an image's file, where they stand in it.
pub type ImageDevice<H> = FileDevice<Window<<H as Host>::Units>>;

/// How the file of an image is used.
#[derive(Clone, Copy)]
pub enum ImageUse {
    /// It is read.
    Read,
    /// It is read, and another file is to take its place.
    Replace,
    /// It is read and changed where it stands.
    Change,
}

/// The image of a job, open.
#[derive(Drop)]
pub enum OpenImage<H: Host> {
    StandardInput,
    /// The file of the image. Its lock, if the file system knows locks, is shared where the image is only read, and
    /// else nobody else's; it is held until this and each device of it is let go.
    File(H::File),
}

// Whether a file may be changed, by its mode: who may write any file is held to it too.
fn is_writable<H: Host>(host: &mut H, file: &H::File) -> bool
    ensures looked { IsTrue (H.state host.old).honest → IsLooking (H.state host.old) (H.state host.new) }
{
    match host.found_open(file) {
        Ok(found) => !Permissions::from_mode(found.mode).readonly(),
        Err(_) => false,
    }
}

// Whether a path leads to this open file still.
fn leads_to<H: Host>(host: &mut H, path: &str, file: &H::File) -> io::Result<bool>
    ensures looked { IsTrue (H.state host.old).honest → IsLooking (H.state host.old) (H.state host.new) }
{
    let there = host.found(path)?;
    let here = host.found_open(file)?;
    Ok(there.node == here.node && there.size == here.size)
}

// Opens the file of an image that is only read.
fn open_to_read<H: Host>(host: &mut H, path: &str) -> Result<H::File, ImageFault>
    ensures fault { IfErr result (λ fault. fault ≢ ImageFault.Replaced) }
    ensures looked { IsTrue (H.state host.old).honest → IsLooking (H.state host.old) (H.state host.new) }
    ensures opened { IsTrue (H.state host.old).honest → IfOk result (λ file.
        IsOpened (H.place file) (H.unread file) path.now Lock.Shared (H.state host.old) (H.state host.new)) }
    ensures refused { IsTrue (H.state host.old).honest → OnErr result (IsUnopened path.now (H.state host.new)) }
{
    match open_shared(host, path) {
        Ok(file) => Ok(file),
        Err(OpenFault::Unopened(_)) => Err(ImageFault::Unopened),
        Err(OpenFault::Held) => Err(ImageFault::Held),
    }
}

// Whether an open file may be used so: one that is changed has to be writable.
fn is_usable<H: Host>(host: &mut H, file: &H::File, access: Access) -> bool
    ensures looked { IsTrue (H.state host.old).honest → IsLooking (H.state host.old) (H.state host.new) }
    ensures unusable { result ≡ false → access ≡ Access.Change }
{
    match access {
        Access::Read => true,
        Access::Change => is_writable(host, file),
    }
}

// Opens a file that may be used so. Its lock is not taken yet.
fn open_usable<H: Host>(host: &mut H, path: &str, access: Access) -> Result<H::File, ImageFault>
    ensures looked { IsTrue (H.state host.old).honest → IsLooking (H.state host.old) (H.state host.new) }
    ensures opened { IsTrue (H.state host.old).honest → IfOk result (λ file.
        IsFileAt (H.place file) (H.unread file) path.now (H.state host.old)) }
    ensures refused { IsTrue (H.state host.old).honest
        → IfErr result (IsCause path.now (use_alone access) (H.state host.new)) }
{
    let Ok(file) = host.open(path, access) else {
        return Err(ImageFault::Unopened);
    };
    if is_usable(host, &file, access) {
        Ok(file)
    } else {
        Err(ImageFault::Unopened)
    }
}

// Opens the file of an image that is changed, or whose place another file is to take.
fn open_alone<H: Host>(host: &mut H, path: &str, access: Access) -> Result<H::File, ImageFault>
    ensures looked { IsTrue (H.state host.old).honest → IsLooking (H.state host.old) (H.state host.new) }
    ensures opened { IsTrue (H.state host.old).honest → IfOk result (λ file.
        IsOpened (H.place file) (H.unread file) path.now Lock.Exclusive (H.state host.old) (H.state host.new)) }
    ensures refused { IsTrue (H.state host.old).honest
        → IfErr result (IsCause path.now (use_alone access) (H.state host.new)) }
{
    let file = open_usable(host, path, access)?;
    if is_held(host, &file, Lock::Exclusive) {
        return Err(ImageFault::Held);
    }
    match leads_to(host, path, &file) {
        Ok(true) => Ok(file),
        _ => Err(ImageFault::Replaced),
    }
}

// Opens the file of an image that is used so.
fn open_file<H: Host>(host: &mut H, path: &str, image_use: ImageUse) -> Result<H::File, ImageFault>
    ensures looked { IsTrue (H.state host.old).honest → IsLooking (H.state host.old) (H.state host.new) }
    ensures opened { IsTrue (H.state host.old).honest → IfOk result (λ file. IsOpened
        (H.place file) (H.unread file) path.now (lock_for image_use) (H.state host.old) (H.state host.new)) }
    ensures fault { IfErr result (λ fault. fault ≡ ImageFault.Replaced → image_use ≢ ImageUse.Read) }
    ensures refused { IsTrue (H.state host.old).honest
        → IfErr result (IsCause path.now image_use (H.state host.new)) }
{
    match image_use {
        ImageUse::Read => open_to_read(host, path),
        ImageUse::Replace => open_alone(host, path, Access::Read),
        ImageUse::Change => open_alone(host, path, Access::Change),
    }
}

// The units of a file system.
fn unit_kind(file_system: FileSystem) -> UnitKind
    ensures { result ≡ kind_of file_system }
{
    match file_system {
        FileSystem::Dos => UnitKind::Sector,
        FileSystem::Prodos => UnitKind::Block,
    }
}

/// Whether the units of a volume stand in the file of its image as they are.
pub fn is_in_its_file(volume: VolumeOptions) -> bool
    ensures { IsTrue result ↔ StandsInItsFile volume }
{
    a2_media::is_in_place(volume.order, unit_kind(volume.file_system))
}

impl<H: Host> OpenImage<H> {
    /// Opens the file of an image. Where it is changed, or another file is to take its place, nobody else that asks for
    /// the lock reads or changes it until this is let go; and it is the file to which the path leads, as the lock is
    /// held.
    ///
    /// # Errors
    /// `Unopened` where the system does not open it, or it is to be changed and no one may write it, `Held` where
    /// another holds its lock, `Replaced` where the path leads to another file by now.
    pub fn open(host: &mut H, path: &str, image_use: ImageUse) -> Result<OpenImage<H>, ImageFault>
        ensures file { IfOk result (λ image. image ≢ OpenImage.StandardInput) }
        ensures fault { IfErr result (λ fault. fault ≡ ImageFault.Replaced → image_use ≢ ImageUse.Read) }
        ensures looked { IsTrue (H.state host.old).honest → IsLooking (H.state host.old) (H.state host.new) }
        ensures opened { IsTrue (H.state host.old).honest → IfOk result (IsFile (λ file. IsOpened
            (H.place file) (H.unread file) path.now (lock_for image_use) (H.state host.old) (H.state host.new))) }
        ensures refused { IsTrue (H.state host.old).honest
            → IfErr result (IsCause path.now image_use (H.state host.new)) }
    {
        Ok(OpenImage::File(open_file(host, path, image_use)?))
    }

    /// The bytes of the image, up to one past so many.
    ///
    /// # Errors
    /// `Input` where it can't be read, `Memory` where there is no room for it.
    pub fn bytes(&mut self, host: &mut H, most: u32) -> Result<Vec<u8>, Failure>
        ensures read { IfSome (rest_of H.unread (H.state host.old).input self.old)
            (λ bytes. IfOk result (λ read. read.items ≡ take (most + 1) bytes)) }
        ensures failed { IfErr result IsReadFailure }
        ensures looked { IsTrue (H.state host.old).honest
            → IsReadingOf self.old (H.state host.old) (H.state host.new) }
    {
        match self {
            OpenImage::StandardInput => front_of_input(host, most),
            OpenImage::File(file) => front_of(host, file, most),
        }
    }

    /// The units of a volume, where they stand in the file of the image, or in a part of it. Nothing was written to
    /// them yet.
    ///
    /// # Errors
    /// Of several the first in this order: `InPlace` for standard input, and where the units don't stand in the file as
    /// they are; `Io` where the system does not hand them out, or the part is not inside the file; `Length` where no
    /// image in this order has its length.
    pub fn device(
        &self,
        host: &mut H,
        part: Option<Extent>,
        volume: VolumeOptions,
    ) -> Result<ImageDevice<H>, FileError>
        ensures in_place { IsErrOf result FileError.InPlace
            ↔ (self.now ≡ OpenImage.StandardInput) ⊎ (¬ StandsInItsFile volume) }
        ensures units { IfOk result (λ device.
            HasUnitsOf volume.file_system
            (⟦<FileDevice<Window<H::Units>> as Device>⟧.state device)) }
        ensures window { IfOk result (λ device.
            device.file.extent ≡ image_extent part (H.Units.state device.file.file).size) }
        ensures looked { IsTrue (H.state host.old).honest → IsLooking (H.state host.old) (H.state host.new) }
        ensures lent { IsTrue (H.state host.old).honest → IfOk result (λ device.
            IsFile (λ file. AreUnitsOf H.units_place H.Units.state (H.place file) (H.state host.old)
            device.file.file) self.now) }
    {
        let OpenImage::File(file) = self else {
            return Err(FileError::InPlace);
        };
        if !is_in_its_file(volume) {
            return Err(FileError::InPlace);
        }
        let Ok(units) = host.units(file) else {
            return Err(FileError::Io);
        };
        let kind = unit_kind(volume.file_system);
        FileDevice::of_image(units, part, volume.order, kind)
    }
}
