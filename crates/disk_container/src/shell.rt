// The payload of a container, and what stands around it.
ghost use Rattle.std.specs.Prelude.{◌≡◌, ◌≤◌, ◌++◌, IfOk, OnErr, length, slice_range};
ghost use Rattle.disk_container.specs.Container.{HasParts, IsContainer, payload_in};

use crate::container::Container;
use std::alloc::{AllocError, Allocator, Global};

/// What stands around the payload of a container.
#[derive(Drop)]
pub struct Shell<A: Allocator = Global> {
    /// In front of it: the header, and what stands between it and the payload.
    pub front: Vec<u8, A>,
    /// Behind it.
    pub back: Vec<u8, A>,
}

// Leaves of bytes those from one offset to another.
fn keep_range<A: Allocator>(bytes: &mut Vec<u8, A>, start: usize, end: usize)
    requires order { start ≤ end }
    requires inside { end ≤ length bytes.old.items }
    ensures { bytes.new.items ≡ slice_range bytes.old.items start end }
{
    bytes.copy_within(start..end, 0);
    bytes.truncate(end - start);
}

/// Leaves of a container its payload alone.
pub fn keep_payload<A: Allocator>(file: &mut Vec<u8, A>, container: Container)
    requires { IsContainer file.old.items container }
    ensures { file.new.items ≡ payload_in file.old.items container }
{
    keep_range(file, container.start, container.start + container.size);
}

/// Takes the shell of a container off: its payload stays.
///
/// # Errors
/// Want of memory; the container is as it was then.
pub fn take_shell<A: Allocator + Copy>(
    alloc: A,
    file: &mut Vec<u8, A>,
    container: Container,
) -> Result<Shell<A>, AllocError>
    requires { IsContainer file.old.items container }
    ensures parts { IfOk result (λ shell. HasParts file.old.items container
        shell.front.items file.new.items shell.back.items) }
    ensures kept { OnErr result (file.new.items ≡ file.old.items) }
{
    let end = container.start + container.size;
    let front = Vec::from_slice(alloc, &file[..container.start])?;
    let back = Vec::from_slice(alloc, &file[end..])?;
    keep_range(file, container.start, end);
    Ok(Shell { front, back })
}

impl<A: Allocator> Shell<A> {
    /// The shell around a payload.
    ///
    /// # Errors
    /// Want of memory.
    pub fn around<B: Allocator>(&self, alloc: B, payload: &[u8]) -> Result<Vec<u8, B>, AllocError>
        ensures { IfOk result (λ file.
            file.items ≡ self.now.front.items ++ payload.now ++ self.now.back.items) }
    {
        let size = self.front.len().saturating_add(payload.len());
        let mut file = Vec::with_capacity(alloc, size.saturating_add(self.back.len()))?;
        file.extend_from_slice(self.front.as_slice())?;
        file.extend_from_slice(payload)?;
        file.extend_from_slice(self.back.as_slice())?;
        Ok(file)
    }
}
