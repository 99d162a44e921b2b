// What a step does.
use thiserror::Error;

/// One write that a step has made.
#[derive(Clone, Copy, PartialEq, Eq)]
pub enum Wrote {
    /// A unit of the map.
    Map,
    /// A copy of a part's unit, at the place to which the part goes.
    Copy,
    /// The pointer that now names the copy.
    Pointer,
}

/// What a step has done.
#[derive(Clone, Copy, PartialEq, Eq)]
pub enum Progress {
    /// Exactly one write.
    Wrote(Wrote),
    /// Nothing: no write is left.
    Done,
}

/// Why a step was not made.
#[derive(Clone, Copy, Debug, PartialEq, Eq, Error)]
pub enum StepError {
    /// A write failed before.
    #[error("the session is closed")]
    Closed,
    /// A unit can't be read. Nothing was written, and the same step may be tried again.
    #[error("a unit can't be read")]
    Read,
    /// A unit can't be written. The session is closed.
    #[error("a unit can't be written")]
    Write,
}
