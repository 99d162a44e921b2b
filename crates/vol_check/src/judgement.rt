// What the checker says of a volume whose header, directory and map could be read.
use crate::{Checked, Faults};
use std::alloc::{Allocator, Global};

/// What is said of a volume that was read.
#[derive(Drop)]
pub enum Judgement<V: Drop, A: Allocator = Global> {
    /// It is accepted.
    Accepted(Checked<V, A>),
    /// Parts of it or entries have faults. The volume comes back with them, so that who tells of the faults can tell of
    /// the files.
    Refused(V, Faults<A>),
}
