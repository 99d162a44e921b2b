//! Dates and access bits of entries.
use bitflags::Flags;
use jiff::civil::DateTime;
use pro_dates::{from_civil, to_civil};
use pro_dir::{Access, ProDate};
use std::test::Fail;

// The year, the month, the day, the hour and the minute that the bytes of a date name.
fn named(bytes: [u8; 4]) -> Option<(i16, i8, i8, i8, i8)> {
    let moment = to_civil(ProDate(bytes))?;
    Some((
        moment.year(),
        moment.month(),
        moment.day(),
        moment.hour(),
        moment.minute(),
    ))
}

#[test]
fn reads_dates(rt: HostRuntime) {
    assert!(rt; named([0xa1, 0xac, 0x1e, 0x0c]) == Some((1986, 5, 1, 12, 30)));
    assert!(rt; named([0xa1, 0xad, 0x1e, 0x0c]).is_none());
    assert!(rt; named([0; 4]).is_none());
}

// The bytes of the date of a moment, if a date names it.
fn made(moment: &str) -> Result<Option<ProDate>, Fail> {
    let moment: DateTime = moment.parse()?;
    Ok(from_civil(moment))
}

/// Moments, and the bytes of their dates.
static MOMENTS: [(&str, Option<ProDate>); 3] = [
    (
        "1986-05-01T12:30:00",
        Some(ProDate([0xa1, 0xac, 0x1e, 0x0c])),
    ),
    ("1939-12-31T23:59:59", None),
    ("2039-12-31T23:59:59", Some(ProDate([0x9f, 0x4f, 59, 23]))),
];

#[test]
fn makes_dates(rt: HostRuntime) -> Result<(), Fail> {
    for (moment, date) in &MOMENTS {
        assert!(rt; made(moment)? == *date, "{moment}");
    }
    Ok(())
}

// Whether a file with this access is unlocked, can be destroyed and can be renamed.
fn rights(access: Access) -> [bool; 3] {
    [
        access.is_unlocked(),
        access.can_destroy(),
        access.can_rename(),
    ]
}

#[test]
fn locks_and_unlocks(rt: HostRuntime) {
    let access = Access::of(0xe3);
    assert!(rt; rights(access) == [true, true, true]);
    let locked = access.lock();
    assert!(rt; locked.bits() == 0x21);
    assert!(rt; rights(locked) == [false, false, false]);
    assert!(rt; locked.unlock().bits() == 0xe3);
    assert!(rt; Access::of(0x1c).unlock().bits() == 0xdf);
}
