// Files of other kinds, which hold disk images in forms that are not read here.
ghost use Rattle.std.specs.Prelude.{◌≡◌};
ghost use Rattle.shop_files.specs.Foreign.{
  foreign_of as kind_of,
  is_disk_copy as is_of_disk_copy,
  is_woz as is_of_woz,
  of_length as kind_of_length,
};

/// The bytes of the header of a DiskCopy 4.2 image, which end with its mark.
const DISK_COPY_HEADER: usize = 84;

/// The bytes of 65,536 blocks.
const TOO_MANY_BLOCKS: usize = 33_554_432;

/// The bytes of 35 tracks of 13 sectors.
const THIRTEEN_SECTORS: usize = 116_480;

/// The bytes of 36 tracks of 16 sectors.
const THIRTY_SIX_TRACKS: usize = 147_456;

/// The bytes of 40 tracks of 16 sectors.
const FORTY_TRACKS: usize = 163_840;

/// The bytes of 35 tracks of 6,384 disk bytes.
const SHORT_TRACKS: usize = 223_440;

/// A kind of file that may hold a disk image, and is not read here.
#[derive(Clone, Copy, PartialEq, Eq)]
pub enum Foreign {
    /// The bit stream of a disk (WOZ 1 and 2).
    Woz,
    /// A file that gzip has packed.
    Gzip,
    /// A zip archive.
    Zip,
    /// A ShrinkIt archive (NuFX).
    ShrinkIt,
    /// An image of DiskCopy 4.2.
    DiskCopy,
    /// A 2IMG file, which is read where the order of its image is left to its header.
    Container,
    /// An image of 65,536 blocks, one more than a ProDOS volume can have.
    TooManyBlocks,
    /// A disk of 13 sectors a track.
    ThirteenSectors,
    /// A disk of 36 tracks.
    ThirtySixTracks,
    /// A disk of 40 tracks.
    FortyTracks,
    /// Tracks of 6,384 disk bytes.
    ShortTracks,
}

fn is_woz(bytes: &[u8]) -> bool
    ensures { result ≡ is_of_woz bytes.now }
{
    bytes.starts_with(b"WOZ1") || bytes.starts_with(b"WOZ2")
}

fn is_disk_copy(bytes: &[u8]) -> bool
    ensures { result ≡ is_of_disk_copy bytes.now }
{
    bytes.len() >= DISK_COPY_HEADER && bytes[82] == 1 && bytes[83] == 0
}

// The kind of file that is known by how many bytes it has.
fn of_length(bytes: usize) -> Option<Foreign>
    ensures { result ≡ kind_of_length bytes }
{
    match bytes {
        TOO_MANY_BLOCKS => Some(Foreign::TooManyBlocks),
        THIRTEEN_SECTORS => Some(Foreign::ThirteenSectors),
        THIRTY_SIX_TRACKS => Some(Foreign::ThirtySixTracks),
        FORTY_TRACKS => Some(Foreign::FortyTracks),
        SHORT_TRACKS => Some(Foreign::ShortTracks),
        _ => None,
    }
}

/// The kind of file that bytes are by what they begin with, or by how many they are, if it is one of these.
pub fn foreign_of(bytes: &[u8]) -> Option<Foreign>
    ensures { result ≡ kind_of bytes.now }
{
    if is_woz(bytes) {
        Some(Foreign::Woz)
    } else if bytes.starts_with(&[0x1f, 0x8b]) {
        Some(Foreign::Gzip)
    } else if bytes.starts_with(&[b'P', b'K', 3, 4]) {
        Some(Foreign::Zip)
    } else if bytes.starts_with(&[0x4e, 0xf5, 0x46, 0xe9, 0x6c, 0xe5]) {
        Some(Foreign::ShrinkIt)
    } else if bytes.starts_with(b"2IMG") {
        Some(Foreign::Container)
    } else if is_disk_copy(bytes) {
        Some(Foreign::DiskCopy)
    } else {
        of_length(bytes.len())
    }
}

impl Foreign {
    // What it is and what opens it, in whole sentences.
    pub(crate) fn text(self) -> &'static str {
        match self {
            Foreign::Woz => {
                "It begins as a WOZ file does, which holds the bit stream of a disk. CiderPress II and most emulators \
                    open it, and save the disk in DOS or ProDOS order."
            }
            Foreign::Gzip => {
                "It begins as a file that gzip has packed. `gunzip` gives the image that was packed."
            }
            Foreign::Zip => "It begins as a zip archive does. `unzip` gives the files in it.",
            Foreign::ShrinkIt => {
                "It begins as a ShrinkIt archive does. `nulib2` and CiderPress II give the files, or the disk, in it."
            }
            Foreign::DiskCopy => {
                "It has the mark of a DiskCopy 4.2 image. CiderPress II opens it, and saves the disk in ProDOS order."
            }
            Foreign::Container => {
                "It begins as a 2IMG file does, which holds an image behind a header. `--order 2img` reads it where \
                    the command takes that, and `a2shop unwrap` takes the image out."
            }
            Foreign::TooManyBlocks => {
                "It has 65,536 blocks, one more than a ProDOS volume can have. CiderPress II and most emulators open \
                    it; the last block is of no file."
            }
            Foreign::ThirteenSectors => {
                "It has the 116,480 bytes of a disk of 13 sectors a track, as DOS 3.2 and older systems have. \
                    CiderPress II and some emulators open it, and copy its files to a disk of 16 sectors a track."
            }
            Foreign::ThirtySixTracks => {
                "It has the 147,456 bytes of a disk of 36 tracks; the disks that are read here have 35. CiderPress II \
                    or an emulator may open it, and copy its files to a disk of 35 tracks."
            }
            Foreign::FortyTracks => {
                "It has the 163,840 bytes of a disk of 40 tracks; the disks that are read here have 35. CiderPress II \
                    or an emulator may open it, and copy its files to a disk of 35 tracks."
            }
            Foreign::ShortTracks => {
                "It has the 223,440 bytes of 35 tracks of 6,384 disk bytes; the tracks that are read here have 6,656. \
                    CiderPress II and some emulators open it, and save the disk in DOS or ProDOS order."
            }
        }
    }
}
