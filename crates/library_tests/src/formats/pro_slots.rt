//! Writes into the slots of a directory block.
use pro_dir::{NewFile, ProDate, count, encode, erase, set_access, set_count, set_key, set_name};

// A block of bytes AA.
fn block() -> [u8; 512] {
    [0xaa; 512]
}

// The slot 2 of such a block after a file is written there, with the bytes before it and behind it.
fn encoded() -> [u8; 41] {
    let mut unit = block();
    let mut name = [0x41; 15];
    name[..4].copy_from_slice(b"NOTE");
    let file = NewFile {
        storage: 1,
        name,
        len: 4,
        kind: 0x06,
        key: 10,
        blocks: 1,
        eof: 0x030201,
        aux: 0x0800,
        access: 0xe3,
        date: ProDate([0xa1, 0xac, 0x1e, 0x0c]),
        dir: 0x0102,
    };
    encode(&mut unit, 2, &file);
    let mut slot = [0; 41];
    slot.copy_from_slice(&unit[0x51..0x7a]);
    slot
}

/// That slot: the name, type, key and length; creation, versions and access; auxiliary type, change and header.
#[rattlefmt::skip]
static NOTE: [u8; 41] = [
    0xaa, 0x14, 0x4e, 0x4f, 0x54, 0x45, 0x00, 0x00, 0x00, 0x00, 0x00, 0x00, 0x00, 0x00, 0x00, 0x00,
    0x00, 0x06, 10, 0, 1, 0, 1, 2, 3,
    0xa1, 0xac, 0x1e, 0x0c, 0, 0, 0xe3,
    0x00, 0x08, 0xa1, 0xac, 0x1e, 0x0c, 0x02, 0x01, 0xaa,
];

#[test]
fn writes_a_new_file(rt: HostRuntime) {
    assert!(rt; encoded() == NOTE);
}

// The bytes of the key pointer of slot 12 after it is written, with those around it.
fn key_set() -> [u8; 4] {
    let mut unit = block();
    set_key(&mut unit, 12, 0x0102);
    [unit[0x1e8], unit[0x1e9], unit[0x1ea], unit[0x1eb]]
}

// The same of the access bits of slot 1.
fn access_set() -> [u8; 3] {
    let mut unit = block();
    set_access(&mut unit, 1, 0x21);
    [unit[0x48], unit[0x49], unit[0x4a]]
}

// The same of the beginning and the end of the name in slot 1.
fn name_set() -> ([u8; 4], [u8; 2]) {
    let mut unit = block();
    set_name(&mut unit, 1, &[0x42; 15], 1);
    (
        [unit[0x2a], unit[0x2b], unit[0x2c], unit[0x2d]],
        [unit[0x3a], unit[0x3b]],
    )
}

// The same of the first byte of slot 1 after it is erased.
fn erased() -> [u8; 3] {
    let mut unit = block();
    erase(&mut unit, 1);
    [unit[0x2a], unit[0x2b], unit[0x2c]]
}

// The same of the count of files, and what then is read of it.
fn count_set() -> ([u8; 4], u16) {
    let mut unit = block();
    set_count(&mut unit, 0x0203);
    (
        [unit[0x24], unit[0x25], unit[0x26], unit[0x27]],
        count(&unit),
    )
}

#[test]
fn writes_fields_of_a_slot(rt: HostRuntime) {
    assert!(rt; key_set() == [0xaa, 0x02, 0x01, 0xaa]);
    assert!(rt; access_set() == [0xaa, 0x21, 0xaa]);
    assert!(rt; name_set() == ([0xaa, 0xa1, 0x42, 0x00], [0x00, 0xaa]));
    assert!(rt; erased() == [0xaa, 0x00, 0xaa]);
    assert!(rt; count_set() == ([0xaa, 0x03, 0x02, 0xaa], 0x0203));
}
