// Names as they are stored.
ghost use Rattle.std.specs.Prelude.{◌≡◌, IfOk};

use std::alloc::{AllocError, Allocator, Global};
use std::marker::Model;

/// The bytes of a name, a path or a volume number, as they are stored.
#[derive(Drop)]
pub struct StoredName<A: Allocator = Global> {
    bytes: Vec<u8, A>,
}

impl<A: Allocator> Model for StoredName<A> {
    ghost use Rattle.std.specs.Prelude.{ℕ, List};

    ghost Value = { List ℕ };

    ghost view = { λ n. n.bytes.items };
}

impl<A: Allocator> StoredName<A> {
    // These bytes.
    pub(crate) fn of(bytes: Vec<u8, A>) -> StoredName<A>
        ensures { result ≡ bytes.items }
    {
        StoredName { bytes }
    }

    /// A copy of these bytes.
    ///
    /// # Errors
    /// Want of memory alone.
    pub fn copy_of(alloc: A, bytes: &[u8]) -> Result<StoredName<A>, AllocError>
        ensures { IfOk result (λ name. name ≡ bytes.now) }
    {
        let bytes = Vec::from_slice(alloc, bytes)?;
        Ok(StoredName { bytes })
    }

    /// The bytes.
    pub fn as_bytes(&self) -> &[u8]
        ensures { result.now ≡ self.now }
    {
        self.bytes.as_slice()
    }

    /// The bytes, in their vector.
    pub fn into_bytes(self) -> Vec<u8, A>
        ensures { result.items ≡ self }
    {
        self.bytes
    }
}
