//! Files that are named by the bytes of the path that is stored.
ghost use Rattle.std.specs.Prelude.{◌≡◌, ◌<◌, ◌≤◌, vec_len};

use crate::files::dos_listings::dos_33;
use a2_device::Device;
use file_cmds::{CmdError, read};
use file_formats::FileName;
use pro_format::Prodos;
use std::alloc::Global;
use std::test::Fail;
use test_volumes::{block_device, dos_device, hello, tree_and_subdirectory};
use vol_layout::Reserved;

/// What a read of the file with these stored bytes gives of a DOS 3.3 volume.
fn text_on_dos<D: Device>(alloc: Global, device: &mut D, bytes: &[u8]) -> Result<Vec<u8>, CmdError>
    requires unit { (D.state device.old).unit_size ≡ 256 }
    requires places { (D.state device.old).places ≡ 560 }
{
    let format = dos_33(alloc)?;
    read(alloc, device, &format, FileName::Stored(bytes), false)
}

/// What it gives of a ProDOS volume.
fn text_on_blocks<D: Device>(
    alloc: Global,
    device: &mut D,
    bytes: &[u8],
) -> Result<Vec<u8>, CmdError>
    requires unit { (D.state device.old).unit_size ≡ 512 }
    requires places { (16 ≤ (D.state device.old).places) × ((D.state device.old).places < 65536) }
{
    let format = Prodos::new(alloc, Reserved::none(alloc));
    read(alloc, device, &format, FileName::Stored(bytes), false)
}

/// Whether a volume of DOS 3.3 has a file with these stored bytes.
fn has_dos(alloc: Global, image: Vec<u8>, bytes: &[u8]) -> bool
    requires { vec_len image ≡ 143360 }
{
    text_on_dos(alloc, &mut dos_device(image), bytes).is_ok()
}

/// Whether a volume of ProDOS has one.
fn has_pro(alloc: Global, image: Vec<u8>, bytes: &[u8]) -> bool {
    match block_device(image) {
        Some(mut device) => text_on_blocks(alloc, &mut device, bytes).is_ok(),
        None => false,
    }
}

/// Stored bytes, and whether they are those of HELLO.
static HELLO_NAMES: [(&[u8], bool); 7] = [
    (b"\xc8\xc5\xcc\xcc\xcf", true),
    (b"\xc8\xc5\xcc\xcc\xcf\xa0", true),
    (
        b"\xc8\xc5\xcc\xcc\xcf\xa0\xa0\xa0\xa0\xa0\xa0\xa0\xa0\xa0\xa0\xa0\xa0\xa0\xa0\xa0\xa0\xa0\xa0\xa0\xa0\xa0\xa0\
          \xa0\xa0\xa0",
        true,
    ),
    (
        b"\xc8\xc5\xcc\xcc\xcf\xa0\xa0\xa0\xa0\xa0\xa0\xa0\xa0\xa0\xa0\xa0\xa0\xa0\xa0\xa0\xa0\xa0\xa0\xa0\xa0\xa0\xa0\
          \xa0\xa0\xa0\xa0",
        false,
    ),
    (b"HELLO", false),
    (b"\xc8\xc5\xcc\xcc", false),
    (b"", false),
];

#[test]
fn a_dos_file_has_its_stored_name(rt: HostRuntime) -> Result<(), Fail> {
    for (bytes, has) in &HELLO_NAMES {
        assert!(rt;
            has_dos(rt.alloc(), hello(rt.alloc())?, bytes) == *has,
            "{bytes:?}"
        );
    }
    Ok(())
}

#[test]
fn the_body_of_a_dos_file_is_read_by_its_stored_name(rt: HostRuntime) -> Result<(), Fail> {
    let mut device = dos_device(hello(rt.alloc())?);
    let text = text_on_dos(rt.alloc(), &mut device, b"\xc8\xc5\xcc\xcc\xcf")?;
    assert!(rt; text.as_slice() == b"\xa9\x00\x60".as_slice());
    Ok(())
}

/// Stored bytes, and whether they are those of a file of the volume with BIG, SUB and SUB/A.
static PATHS: [(&[u8], bool); 5] = [
    (b"BIG", true),
    (b"SUB/A", true),
    (b"SUB", false),
    (b"sub/a", false),
    (b"", false),
];

#[test]
fn a_prodos_file_has_its_stored_path(rt: HostRuntime) -> Result<(), Fail> {
    for (bytes, has) in &PATHS {
        let image = tree_and_subdirectory(rt.alloc())?;
        assert!(rt; has_pro(rt.alloc(), image, bytes) == *has, "{bytes:?}");
    }
    Ok(())
}
