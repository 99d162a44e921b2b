use thiserror::Error;

/// Why a sector can't be read or written. `Number`: the track is past 34 or the sector past 15.
/// `NoSector`: the track has no address field of the sector whose data field counts too.
#[derive(Clone, Copy, Debug, PartialEq, Eq, Error)]
pub enum NibError {
    #[error("no such track or sector")]
    Number,
    #[error("the sector is not on the track")]
    NoSector,
}
