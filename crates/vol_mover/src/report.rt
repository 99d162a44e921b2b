// What an optimizer reports.
use crate::{OpenError, StepError};
use std::alloc::{Allocator, Global};
use thiserror::Error;

/// What was done to a volume.
#[derive(Drop)]
pub struct Report<A: Allocator = Global> {
    /// How many moves were made.
    pub moves: u32,
    /// How many rings the layout had at first.
    pub rings: u32,
    /// How many parts were misplaced at first.
    pub misplaced: u32,
    /// How many writes of the map were made.
    pub map_writes: u32,
    /// Whether each part stands at its target and no place is lost.
    pub finished: bool,
    /// The certificate of the plan, for the layout at first.
    pub cert: Vec<u8, A>,
}

/// Why a volume is not optimized, or not to the end.
#[derive(Debug, Drop, Error)]
pub enum OptError<A: Allocator = Global> {
    /// It is not opened; nothing was written.
    #[error("{0}")]
    Open(OpenError<A>),
    /// A step failed.
    #[error("{0}")]
    Step(StepError),
    /// There is no room for the certificate; nothing was written.
    #[error("memory ran out")]
    Memory,
}
