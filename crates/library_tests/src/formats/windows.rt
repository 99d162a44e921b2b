//! A part of a file as a file.
ghost use Rattle.std.specs.Prelude.{◌≡◌, IfOk};

use a2_media::{Extent, FileFailure, MemoryFile, PositionedFile, Window};
use std::alloc::{AllocError, Global};
use std::test::Fail;

/// Four bytes of a file of eight, from the third on.
fn window(alloc: Global) -> Result<Window<MemoryFile>, AllocError>
    ensures size { IfOk result (λ window. window.extent.size ≡ 4) }
    ensures standing { IfOk result (λ window. (⟦<MemoryFile as PositionedFile>⟧.state window.file).standing ≡ 0) }
{
    let file = MemoryFile::new(Vec::from_slice(alloc, b"abcdefgh")?);
    Ok(Window::new(file, Extent { start: 2, size: 4 }))
}

#[test]
fn a_part_of_a_file_is_read(rt: HostRuntime) -> Result<(), Fail> {
    let mut window = window(rt.alloc())?;
    let mut bytes = [0; 3];
    assert!(rt; window.read_whole(1, &mut bytes) == Ok::<(), FileFailure>(()));
    assert!(rt; bytes == [b'd', b'e', b'f']);
    Ok(())
}

#[test]
fn a_part_of_a_file_is_written_and_nothing_around_it(rt: HostRuntime) -> Result<(), Fail> {
    let mut window = window(rt.alloc())?;
    assert!(rt; window.write_whole(0, b"CD") == Ok::<(), FileFailure>(()));
    assert!(rt; window.write_whole(2, b"EF") == Ok::<(), FileFailure>(()));
    let bytes = window.into_file().into_bytes();
    assert!(rt; bytes.as_slice() == b"abCDEFgh".as_slice());
    Ok(())
}
