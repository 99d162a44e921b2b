// Why a job is refused, and what fails under one.
ghost use Rattle.std.specs.Prelude.{◌≡◌};
ghost use Rattle.shop_replies.specs.Reply.{container_line, failure_line, number_end, refusal_line};

use disk_container::ContainerFault;
use std::alloc::{AllocError, AllocFailed};

/// Why a job was refused.
#[derive(Clone, Copy, Debug, PartialEq, Eq)]
pub enum Refusal {
    /// The image cannot be changed where it stands.
    InPlace,
    /// The file of the image is no container.
    Container(ContainerFault),
    /// The container says that its image is not to be written.
    Protected,
    /// The format has no such type of files.
    Type,
    /// The text of the date is no date and time that the format can have.
    Date,
    /// The text of the places to reserve is no list of places.
    Reserve,
    /// The image has the wrong length for its order.
    Length,
    /// The volume has a fault.
    Check,
    /// The volume has no file of that name.
    NotFound,
    /// No file may get the new name.
    Name,
    /// An entry of the directory has the new name, or something stands at the path of a new file.
    Exists,
    /// The file is locked.
    Locked,
    /// The file is longer than a file can be.
    TooLong,
    /// The directory has no free entry.
    DirFull,
    /// Fewer places are free than the file takes.
    VolumeFull,
    /// Some part is misplaced, and each place has a part.
    NoFreePlace,
    /// No new folder can stand at the path: something does that is no empty folder, or it names none.
    Folder,
    /// An entry stands in too many directories, or its path on the host is too long.
    TooDeep,
    /// The files that are read or written have too many bytes in all.
    TooLarge,
    /// The file that is read has no such form.
    Form,
    /// The file that is read beside the image is too long.
    InputTooLong,
    /// The file that is given is no AppleSingle file that can be taken.
    Single,
    /// A track of the image lacks a sector.
    NoSector,
    /// The name of an entry of a folder says no file or folder of the volume.
    Host,
    /// The readable form that stands beside a file does not give just the bytes of that file.
    Differs,
    /// No way to read the image is better than every other.
    Ambiguous,
    /// There is no volume in the image, or it is not known how it is read.
    Unknown,
}

/// What failed under a job.
#[derive(Clone, Copy, Debug, PartialEq, Eq)]
pub enum Failure {
    /// A file could not be opened or read.
    Input,
    /// A sector of the image could not be read.
    Device,
    Memory,
}

impl From<AllocError> for Failure {
    ghost use Rattle.shop_replies.specs.declared.refusal.Failure.TheVariants.{Memory};

    ghost from_gives = { λ _ failure. failure ≡ Memory };

    fn from(_: AllocError) -> Failure {
        Failure::Memory
    }
}

impl<T: Drop> From<AllocFailed<T>> for Failure {
    ghost use Rattle.shop_replies.specs.declared.refusal.Failure.TheVariants.{Memory};

    ghost from_gives = { λ _ failure. failure ≡ Memory };

    fn from(_: AllocFailed<T>) -> Failure {
        Failure::Memory
    }
}

/// One of the two images that a job compares.
#[derive(Clone, Copy, Debug, PartialEq, Eq)]
pub enum Side {
    First,
    Second,
}

impl Side {
    // What stands behind a line that tells it of this image.
    pub(crate) fn end(self) -> &'static [u8]
        ensures { result.now ≡ number_end self }
    {
        match self {
            Side::First => b" 1\n",
            Side::Second => b" 2\n",
        }
    }
}

// The line that tells why a file is no container.
fn container_line(fault: ContainerFault) -> &'static [u8]
    ensures { result.now ≡ container_line fault }
{
    match fault {
        ContainerFault::Magic => b"REFUSED Container Magic\n",
        ContainerFault::Header => b"REFUSED Container Header\n",
        ContainerFault::Format => b"REFUSED Container Format\n",
        ContainerFault::Data => b"REFUSED Container Data\n",
        ContainerFault::Length => b"REFUSED Container Length\n",
    }
}

impl Refusal {
    /// The line that tells it.
    pub fn line(self) -> &'static [u8]
        ensures { result.now ≡ refusal_line self }
    {
        match self {
            Refusal::InPlace => b"REFUSED InPlace\n",
            Refusal::Container(fault) => container_line(fault),
            Refusal::Protected => b"REFUSED Protected\n",
            Refusal::Type => b"REFUSED Type\n",
            Refusal::Date => b"REFUSED Date\n",
            Refusal::Reserve => b"REFUSED Reserve\n",
            Refusal::Length => b"REFUSED Length\n",
            Refusal::Check => b"REFUSED Check\n",
            Refusal::NotFound => b"REFUSED NotFound\n",
            Refusal::Name => b"REFUSED Name\n",
            Refusal::Exists => b"REFUSED Exists\n",
            Refusal::Locked => b"REFUSED Locked\n",
            Refusal::TooLong => b"REFUSED TooLong\n",
            Refusal::DirFull => b"REFUSED DirFull\n",
            Refusal::VolumeFull => b"REFUSED VolumeFull\n",
            Refusal::NoFreePlace => b"REFUSED NoFreePlace\n",
            Refusal::Folder => b"REFUSED Folder\n",
            Refusal::TooDeep => b"REFUSED TooDeep\n",
            Refusal::TooLarge => b"REFUSED TooLarge\n",
            Refusal::Form => b"REFUSED Form\n",
            Refusal::InputTooLong => b"REFUSED InputTooLong\n",
            Refusal::Single => b"REFUSED Single\n",
            Refusal::NoSector => b"REFUSED NoSector\n",
            Refusal::Host => b"REFUSED Host\n",
            Refusal::Differs => b"REFUSED Differs\n",
            Refusal::Ambiguous => b"REFUSED Ambiguous\n",
            Refusal::Unknown => b"REFUSED Unknown\n",
        }
    }
}

impl Failure {
    /// The line that tells it.
    pub fn line(self) -> &'static [u8]
        ensures { result.now ≡ failure_line self }
    {
        match self {
            Failure::Input => b"FAILED Input\n",
            Failure::Device => b"FAILED Device\n",
            Failure::Memory => b"FAILED Memory\n",
        }
    }
}
