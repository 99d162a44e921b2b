// What an empty volume is to be.
use pro_dir::ProDate;

/// What an empty volume is to be.
#[derive(Clone, Copy, PartialEq, Eq)]
pub enum NewVolume<'a> {
    /// A DOS 3.3 disk.
    Dos {
        /// Its volume number.
        volume: u8,
        /// Whether files may stand on tracks 1 and 2, where other disks have DOS.
        data_disk: bool,
    },
    /// A ProDOS volume.
    Prodos {
        /// How many blocks it has, those of the system among them.
        blocks: u16,
        /// Its name as it is stored: 1 to 15 bytes, capitals.
        name: &'a [u8],
        /// The date and time of its creation; of four bytes 00 there is none.
        date: ProDate,
    },
}
