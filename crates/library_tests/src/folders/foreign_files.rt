//! Files of other kinds, by what they begin with.
use shop_files::{Foreign, foreign_of};
use std::test::Fail;

#[test]
fn files_of_other_kinds_are_known(rt: HostRuntime) -> Result<(), Fail> {
    for (front, kind) in [
        (b"WOZ1\xff\x0a\x0d\x0a".as_slice(), Foreign::Woz),
        (b"WOZ2\xff\x0a\x0d\x0a".as_slice(), Foreign::Woz),
        ([0x1f, 0x8b, 8, 0].as_slice(), Foreign::Gzip),
        ([0x50, 0x4b, 3, 4].as_slice(), Foreign::Zip),
        (
            [0x4e, 0xf5, 0x46, 0xe9, 0x6c, 0xe5].as_slice(),
            Foreign::ShrinkIt,
        ),
        (b"2IMGCPII".as_slice(), Foreign::Container),
    ] {
        assert!(rt; foreign_of(front) == Some(kind));
    }
    let mut disk_copy = vec![in rt.alloc(); 0; 84]?;
    assert!(rt; foreign_of(disk_copy.as_slice()) == None);
    disk_copy[82] = 1;
    assert!(rt; foreign_of(disk_copy.as_slice()) == Some(Foreign::DiskCopy));
    Ok(())
}

#[test]
fn disks_of_other_sizes_are_known(rt: HostRuntime) -> Result<(), Fail> {
    for (bytes, kind) in [
        (33_554_432, Foreign::TooManyBlocks),
        (116_480, Foreign::ThirteenSectors),
        (147_456, Foreign::ThirtySixTracks),
        (163_840, Foreign::FortyTracks),
        (223_440, Foreign::ShortTracks),
    ] {
        let mut disk = vec![in rt.alloc(); 0; bytes]?;
        assert!(rt; foreign_of(disk.as_slice()) == Some(kind));
        let _last = disk.pop();
        assert!(rt; foreign_of(disk.as_slice()) == None);
    }
    Ok(())
}
