//! The pointers of indexes, and what they name.
ghost use Rattle.std.specs.Prelude.{◌≡◌, ◌<◌};
ghost use Rattle.pro_tree.specs.Reach.{pro_pointers, pro_depth};

use a2_device::{Part, PartKind};
use pro_tree::{child, part_above, pointer, pointer_count, root, set_pointer, slot};
use vol_format::Link;

/// The blocks of a disk of 140K.
const PLACES: u32 = 280;

// An index block with these pointers, each by its number, its low byte and its high byte.
fn index(pointers: &[(u8, u8, u8)]) -> [u8; 512] {
    let mut unit = [0; 512];
    for (number, low, high) in pointers {
        unit[*number as usize] = *low;
        unit[256 + *number as usize] = *high;
    }
    unit
}

// A part of a file.
fn part_of(file: u32, kind: PartKind, number: u32, place: u32) -> Part
    ensures { result ≡ record { file = file; kind = kind; number = number; place = place } }
{
    Part {
        file,
        kind,
        number,
        place,
    }
}

// A part of file 3.
fn part(kind: PartKind, number: u32) -> Part
    ensures { result ≡ record { file = 3; kind = kind; number = number; place = 7 } }
{
    part_of(3, kind, number, 7)
}

// A pointer to a part of file 3.
fn to(kind: PartKind, number: u32, place: u32) -> Link {
    Link::To(part_of(3, kind, number, place))
}

#[test]
fn reads_pointers(rt: HostRuntime) {
    let unit = index(&[(0, 0x08, 0x00), (1, 0x17, 0x01), (255, 0xff, 0xff)]);
    assert!(rt; (pointer(&unit, 0), pointer(&unit, 1)) == (8, 279));
    assert!(rt; (pointer(&unit, 2), pointer(&unit, 255)) == (0, 65535));
}

// A block of bytes AA in which a pointer is set.
fn with_pointer(number: u32, block: u32) -> [u8; 512]
    requires number { number < 256 }
    requires block { block < 65536 }
{
    let mut unit = [0xaa; 512];
    set_pointer(&mut unit, number, block);
    unit
}

// A block of bytes AA but for two.
fn block_with(number: usize, low: u8, high: u8) -> [u8; 512]
    requires { number < 256 }
{
    let mut unit = [0xaa; 512];
    unit[number] = low;
    unit[256 + number] = high;
    unit
}

#[test]
fn writes_pointers(rt: HostRuntime) {
    assert!(rt; with_pointer(1, 0x0117) == block_with(1, 0x17, 0x01));
    assert!(rt; with_pointer(255, 0) == block_with(255, 0x00, 0x00));
}

// The storage type and the key of a file on that disk, and what the key names.
fn roots() -> [(u8, u32, Link); 9] {
    [
        (1, 8, to(PartKind::Body, 0, 8)),
        (2, 9, to(PartKind::Index, 0, 9)),
        (3, 279, to(PartKind::Master, 0, 279)),
        (1, 0, Link::Null),
        (2, 280, Link::Wild),
        (3, 65535, Link::Wild),
        (13, 2, Link::Directory),
        (4, 8, Link::OtherType),
        (0, 0, Link::OtherType),
    ]
}

#[test]
fn key_pointers(rt: HostRuntime) {
    for (storage, key, link) in &roots() {
        assert!(rt; root(PLACES, 3, *storage, *key) == *link, "{storage} {key}");
    }
}

// What a pointer of the index of a sapling names.
fn in_sapling(number: u32) -> Link
    requires { number < 256 }
{
    let unit = index(&[
        (0, 0x08, 0x00),
        (2, 0x17, 0x01),
        (3, 0x18, 0x01),
        (255, 0x09, 0x00),
    ]);
    child(PLACES, &part(PartKind::Index, 0), &unit, number)
}

#[test]
fn pointers_of_a_sapling(rt: HostRuntime) {
    assert!(rt; pointer_count(&part(PartKind::Index, 0)) == 256);
    assert!(rt; in_sapling(0) == to(PartKind::Body, 0, 8));
    assert!(rt; in_sapling(1) == Link::Null);
    assert!(rt; in_sapling(2) == to(PartKind::Body, 2, 279));
    assert!(rt; in_sapling(3) == Link::Wild);
    assert!(rt; in_sapling(255) == to(PartKind::Body, 255, 9));
}

// What a pointer of a master index, or of an index of a tree, names.
fn in_tree(above: Part, number: u32) -> Link
    requires depth { pro_depth above.kind above.number < 65536 }
    requires number { number < pro_pointers above.kind }
{
    let unit = index(&[(1, 0x09, 0x00), (127, 0x18, 0x01), (128, 0x0a, 0x00)]);
    child(PLACES, &above, &unit, number)
}

#[test]
fn pointers_of_a_master_index(rt: HostRuntime) {
    let master = part(PartKind::Master, 0);
    assert!(rt; pointer_count(&master) == 128);
    assert!(rt; in_tree(master, 0) == Link::Null);
    assert!(rt; in_tree(master, 1) == to(PartKind::Index, 1, 9));
    assert!(rt; in_tree(master, 127) == Link::Wild);
}

#[test]
fn pointers_of_later_indexes(rt: HostRuntime) {
    assert!(rt; in_tree(part(PartKind::Index, 1), 1) == to(PartKind::Body, 257, 9));
    assert!(rt; in_tree(part(PartKind::Index, 127), 128) == to(PartKind::Body, 32640, 10));
}

#[test]
fn parts_without_pointers_and_slots(rt: HostRuntime) {
    assert!(rt; pointer_count(&part(PartKind::Body, 257)) == 0);
    assert!(rt; slot(&part(PartKind::Body, 32640)) == 128);
    assert!(rt; slot(&part(PartKind::Index, 127)) == 127);
}

// The parts of a tree with a hole of 256 blocks, of a seedling and of a sapling.
fn parts() -> [Part; 7] {
    [
        part_of(3, PartKind::Master, 0, 7),
        part_of(3, PartKind::Index, 1, 7),
        part_of(3, PartKind::Body, 256, 7),
        part_of(3, PartKind::Body, 300, 7),
        part_of(4, PartKind::Body, 0, 7),
        part_of(5, PartKind::Index, 0, 7),
        part_of(5, PartKind::Body, 0, 7),
    ]
}

#[test]
fn parts_that_name_others(rt: HostRuntime) {
    let (parts, above) = (
        parts(),
        [None, Some(0), Some(1), Some(1), None, None, Some(5)],
    );
    for k in 0..7u32 {
        assert!(rt; part_above(&parts, k) == above[k as usize], "part {k}");
    }
}
