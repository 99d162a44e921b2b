ghost use Rattle.std.specs.Prelude.{◌≤◌};

use a2_nibble::{
    FIELD_LEN, Field, NibError, SECTOR_LEN, SECTORS, TRACK_LEN, encode_sector, fields_of_track,
    find_sector, make_track, read_field, read_sector, write_field, write_sector,
};

/// A track of volume 254 on which sector i is filled with byte i.
fn made(track: u8) -> [u8; TRACK_LEN]
    requires { track ≤ 34 }
{
    let mut sectors = [[0; SECTOR_LEN]; SECTORS];
    for i in 0..SECTORS {
        sectors[i] = [i as u8; SECTOR_LEN];
    }
    let mut nibbles = [0; TRACK_LEN];
    make_track(254, track, &sectors, &mut nibbles);
    nibbles
}

fn field(data_at: u16) -> Option<Field> {
    Some(Field {
        data_at,
        volume: 254,
    })
}

#[test]
fn encodes_a_sector(rt: HostRuntime) {
    let mut content = [0; SECTOR_LEN];
    assert!(rt; encode_sector(&content) == [0x96; FIELD_LEN]);
    content[0] = 0x01;
    let mut want = [0x96; FIELD_LEN];
    want[0] = 0x9A;
    want[1] = 0x9A;
    assert!(rt; encode_sector(&content) == want);
    content[0] = 0;
    content[0xFF] = 0xFF;
    let mut want = [0x96; FIELD_LEN];
    want[83] = 0xED;
    want[84] = 0xED;
    want[341] = 0xFF;
    want[342] = 0xFF;
    assert!(rt; encode_sector(&content) == want);
}

#[test]
fn makes_a_track(rt: HostRuntime) {
    let nibbles = made(17);
    let address = [
        0xD5, 0xAA, 0x96, 0xFF, 0xFE, 0xAA, 0xBB, 0xAA, 0xAA, 0xFF, 0xEF, 0xDE, 0xAA, 0xEB,
    ];
    for k in 0..14 {
        assert!(rt; nibbles[48 + k] == address[k], "at {k}");
    }
    let fields = fields_of_track(&nibbles, 17);
    for sector in 0..16u8 {
        let want = field(71 + 396 * u16::from(sector));
        assert!(rt; find_sector(&nibbles, 17, sector) == want);
        assert!(rt; fields[usize::from(sector)] == want);
        let mut content = [99; SECTOR_LEN];
        assert!(rt; read_sector(&nibbles, 17, sector, &mut content) == Ok(()));
        assert!(rt; content == [sector; SECTOR_LEN]);
    }
    assert!(rt; find_sector(&nibbles, 16, 0).is_none());
    assert!(rt; fields_of_track(&nibbles, 16) == [None; SECTORS]);
}

#[test]
fn reads_a_damaged_track(rt: HostRuntime) {
    let mut nibbles = made(17);
    nibbles[71] = 0xAA;
    nibbles[2051] = 0xAA;
    for k in 0..11 {
        nibbles[5988 + k] = nibbles[48 + k];
    }
    assert!(rt; find_sector(&nibbles, 17, 0) == field(6011));
    let fields = fields_of_track(&nibbles, 17);
    assert!(rt; fields[0] == field(6011));
    assert!(rt; fields[5].is_none());
    assert!(rt; fields[15].is_none());
    let mut content = [0; SECTOR_LEN];
    assert!(rt; read_sector(&nibbles, 17, 0, &mut content) == Ok(()));
    assert!(rt; content == [0x0F; SECTOR_LEN]);
    for sector in [5, 15] {
        assert!(rt; read_sector(&nibbles, 17, sector, &mut content) == Err(NibError::NoSector));
    }
    assert!(rt; read_sector(&nibbles, 35, 0, &mut content) == Err(NibError::Number));
    assert!(rt; content == [0x0F; SECTOR_LEN]);
}

#[test]
fn writes_a_damaged_track(rt: HostRuntime) {
    let mut nibbles = made(17);
    nibbles[71] = 0xAA;
    nibbles[2051] = 0xAA;
    for k in 0..11 {
        nibbles[5988 + k] = nibbles[48 + k];
    }
    let old = nibbles;
    let written = [0x5A; SECTOR_LEN];
    assert!(rt; write_sector(&mut nibbles, 17, 0, &written) == Ok(()));
    for place in 0..TRACK_LEN {
        if place < 6011 || place > 6353 {
            assert!(rt; nibbles[place] == old[place], "at {place}");
        }
    }
    let mut content = [0; SECTOR_LEN];
    assert!(rt; read_sector(&nibbles, 17, 0, &mut content) == Ok(()));
    assert!(rt; content == written);
    assert!(rt; write_sector(&mut nibbles, 17, 5, &written) == Err(NibError::NoSector));
    assert!(rt; write_sector(&mut nibbles, 17, 16, &written) == Err(NibError::Number));
}

#[test]
fn reads_a_turned_track(rt: HostRuntime) {
    let made = made(17);
    let mut nibbles = [0; TRACK_LEN];
    for k in 0..TRACK_LEN {
        nibbles[k] = made[(k + 100) % TRACK_LEN];
    }
    assert!(rt; find_sector(&nibbles, 17, 0) == field(6627));
    let mut content = [99; SECTOR_LEN];
    assert!(rt; read_sector(&nibbles, 17, 0, &mut content) == Ok(()));
    assert!(rt; content == [0; SECTOR_LEN]);
}

#[test]
fn reads_and_writes_a_known_field(rt: HostRuntime) {
    let mut nibbles = made(17);
    let mut content = [99; SECTOR_LEN];
    if let Some(field) = find_sector(&nibbles, 17, 3) {
        read_field(&nibbles, field, &mut content);
        assert!(rt; content == [3; SECTOR_LEN]);
        write_field(&mut nibbles, field, &[0xC3; SECTOR_LEN]);
    }
    assert!(rt; read_sector(&nibbles, 17, 3, &mut content) == Ok(()));
    assert!(rt; content == [0xC3; SECTOR_LEN]);
}

#[test]
fn names_its_errors(rt: HostRuntime) {
    let want = "no such track or sector, the sector is not on the track";
    let text = format!(in rt.alloc(); "{}, {}", NibError::Number, NibError::NoSector);
    assert!(rt; matches!(&text, Ok(text) if text.as_str() == want));
}
