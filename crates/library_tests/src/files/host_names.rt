// Names of entries on the host, as they are told.
ghost use Rattle.std.specs.Prelude.{◌≤◌};

use host_folders::{Naming, Stored, bare_name, host_name};
use std::alloc::{AllocError, Allocator, Global};
use std::test::Fail;
use test_volumes::Refusing;
use vol_layout::PlaceForm;

// Whether an entry of type $06 and aux type $0300 has these names with and without its type, in that order.
fn is_named(
    alloc: Global,
    form: PlaceForm,
    name: &[u8],
    number: u32,
    told: [&str; 2],
) -> Result<bool, AllocError>
    requires { 1 ≤ number }
{
    let stored = Stored {
        form,
        name,
        kind: match form {
            PlaceForm::Sector => 0x04,
            PlaceForm::Block => 0x06,
        },
        aux: 0x0300,
        directory: false,
        text: false,
    };
    let naps = host_name(alloc, Naming::Naps, &stored, number)?;
    let plain = host_name(alloc, Naming::Plain, &stored, number)?;
    Ok(naps.as_str() == told[0] && plain.as_str() == told[1])
}

// The same of a name of DOS 3.3 in its usual characters, filled up with spaces.
fn dos_is_named(
    alloc: Global,
    text: &[u8],
    number: u32,
    told: [&str; 2],
) -> Result<bool, AllocError>
    requires { 1 ≤ number }
{
    let mut name = [0xa0; 30];
    for at in 0..text.len() {
        if at < 30 {
            name[at] = text[at] | 0x80;
        }
    }
    is_named(alloc, PlaceForm::Sector, &name, number, told)
}

#[test]
fn plain_names(rt: HostRuntime) -> Result<(), Fail> {
    let alloc = rt.alloc();
    assert!(rt; dos_is_named(alloc, b"HELLO", 1, ["HELLO#060300", "HELLO"])?);
    assert!(rt; dos_is_named(alloc, b"HELLO", 2, ["HELLO~2#060300", "HELLO~2"])?);
    assert!(rt; dos_is_named(alloc, b"HELLO", 1000, ["HELLO~1000#060300", "HELLO~1000"])?);
    assert!(rt;
        is_named(
            alloc,
            PlaceForm::Block,
            b"HELLO",
            1,
            ["HELLO#060300", "HELLO"]
        )?
    );
    Ok(())
}

#[test]
fn escaped_names(rt: HostRuntime) -> Result<(), Fail> {
    let alloc = rt.alloc();
    assert!(rt; dos_is_named(alloc, b"I/O TEST", 1, ["I%2fO TEST#060300", "I%2fO TEST"])?);
    assert!(rt; dos_is_named(alloc, b"50% OFF", 1, ["50%25 OFF#060300", "50%25 OFF"])?);
    assert!(rt; dos_is_named(alloc, b"A~B", 1, ["A%7eB#060300", "A%7eB"])?);
    assert!(rt;
        is_named(
            alloc,
            PlaceForm::Block,
            b"A~B",
            1,
            ["A%7eB#060300", "A%7eB"]
        )?
    );
    assert!(rt;
        is_named(
            alloc,
            PlaceForm::Block,
            b"A\x7f\x80",
            1,
            ["A%7f%80#060300", "A%7f%80"]
        )?
    );
    assert!(rt; is_named(alloc, PlaceForm::Block, b"", 1, ["%#060300", "%"])?);
    Ok(())
}

#[test]
fn names_of_other_bytes(rt: HostRuntime) -> Result<(), Fail> {
    let alloc = rt.alloc();
    let form = PlaceForm::Sector;
    assert!(rt; is_named(alloc, form, b"\xc1\x88\xc2", 1, ["A%88B#060300", "A%88B"])?);
    assert!(rt;
        is_named(
            alloc,
            form,
            b"\x08\x05\x0c\x0c\x0f",
            1,
            ["%08%05%0c%0c%0f#060300", "%08%05%0c%0c%0f"]
        )?
    );
    assert!(rt;
        is_named(
            alloc,
            form,
            b"\x2f\xaf",
            1,
            ["%7f%2f%2f#060300", "%7f%2f%2f"]
        )?
    );
    assert!(rt;
        is_named(
            alloc,
            form,
            b"\x7f\xff",
            1,
            ["%7f%7f%ff#060300", "%7f%7f%ff"]
        )?
    );
    assert!(rt; is_named(alloc, form, &[0xa0; 30], 1, ["%#060300", "%"])?);
    assert!(rt; is_named(alloc, form, &[0xa0; 30], 2, ["%~2#060300", "%~2"])?);
    Ok(())
}

#[test]
fn first_and_last_characters(rt: HostRuntime) -> Result<(), Fail> {
    let alloc = rt.alloc();
    assert!(rt; dos_is_named(alloc, b".PROFILE", 1, ["%2ePROFILE#060300", "%2ePROFILE"])?);
    assert!(rt; dos_is_named(alloc, b"-RF", 1, ["%2dRF#060300", "%2dRF"])?);
    assert!(rt; dos_is_named(alloc, b"..", 1, ["%2e.#060300", "%2e%2e"])?);
    assert!(rt; dos_is_named(alloc, b"..", 2, ["%2e.~2#060300", "%2e.~2"])?);
    assert!(rt; dos_is_named(alloc, b" A", 1, ["%20A#060300", "%20A"])?);
    assert!(rt; is_named(alloc, PlaceForm::Block, b"A ", 1, ["A #060300", "A%20"])?);
    assert!(rt; is_named(alloc, PlaceForm::Block, b".", 1, ["%2e#060300", "%2e"])?);
    Ok(())
}

#[test]
fn names_of_devices(rt: HostRuntime) -> Result<(), Fail> {
    let alloc = rt.alloc();
    assert!(rt; dos_is_named(alloc, b"CON", 1, ["CON#060300", "%43ON"])?);
    assert!(rt; dos_is_named(alloc, b"CON", 2, ["CON~2#060300", "CON~2"])?);
    assert!(rt; dos_is_named(alloc, b"con.x", 1, ["%63on.x#060300", "%63on.x"])?);
    assert!(rt; dos_is_named(alloc, b"con.x", 2, ["%63on.x~2#060300", "%63on.x~2"])?);
    assert!(rt; dos_is_named(alloc, b"COM1", 1, ["COM1#060300", "%43OM1"])?);
    assert!(rt; dos_is_named(alloc, b"COM1", 2, ["COM1~2#060300", "COM1~2"])?);
    assert!(rt; dos_is_named(alloc, b"LPT9 .A", 1, ["%4cPT9 .A#060300", "%4cPT9 .A"])?);
    assert!(rt; dos_is_named(alloc, b"LPT9 .A", 2, ["%4cPT9 .A~2#060300", "%4cPT9 .A~2"])?);
    assert!(rt; dos_is_named(alloc, b"COM0", 1, ["COM0#060300", "COM0"])?);
    assert!(rt;
        is_named(
            alloc,
            PlaceForm::Block,
            b"CON ",
            1,
            ["CON #060300", "CON%20"]
        )?
    );
    Ok(())
}

// The name of a file of DOS 3.3 with this kind and address.
fn name_of_kind(alloc: Global, kind: u8, aux: u16) -> Result<String, AllocError> {
    let stored = Stored {
        form: PlaceForm::Sector,
        name: b"\xc1",
        kind,
        aux,
        directory: false,
        text: false,
    };
    host_name(alloc, Naming::Naps, &stored, 1)
}

#[test]
fn kinds_of_dos(rt: HostRuntime) -> Result<(), Fail> {
    let alloc = rt.alloc();
    assert!(rt; name_of_kind(alloc, 0x00, 0x1234)?.as_str() == "A#040000");
    assert!(rt; name_of_kind(alloc, 0x01, 0x1234)?.as_str() == "A#fa0000");
    assert!(rt; name_of_kind(alloc, 0x02, 0x1234)?.as_str() == "A#fc0801");
    assert!(rt; name_of_kind(alloc, 0x04, 0x1234)?.as_str() == "A#061234");
    assert!(rt; name_of_kind(alloc, 0x08, 0x1234)?.as_str() == "A#f20000");
    assert!(rt; name_of_kind(alloc, 0x10, 0x1234)?.as_str() == "A#fe0000");
    assert!(rt; name_of_kind(alloc, 0x20, 0x1234)?.as_str() == "A#f30000");
    assert!(rt; name_of_kind(alloc, 0x40, 0x1234)?.as_str() == "A#f40000");
    assert!(rt; name_of_kind(alloc, 0x7e, 0x1234)?.as_str() == "A#00007e");
    Ok(())
}

#[test]
fn folders(rt: HostRuntime) -> Result<(), Fail> {
    let alloc = rt.alloc();
    let stored = Stored {
        form: PlaceForm::Block,
        name: b"Sub.A",
        kind: 0x0f,
        aux: 0,
        directory: true,
        text: false,
    };
    assert!(rt; host_name(alloc, Naming::Naps, &stored, 1)?.as_str() == "Sub.A");
    assert!(rt; bare_name(alloc, Naming::Naps, &stored)?.as_slice() == b"sub.a".as_slice());
    Ok(())
}

// Whether there was memory for the name of an entry and for what it is compared by.
fn are_made<A: Allocator + Copy>(alloc: A) -> bool {
    let stored = Stored {
        form: PlaceForm::Block,
        name: b"-CON.X ",
        kind: 0x06,
        aux: 0x0300,
        directory: false,
        text: false,
    };
    host_name(alloc, Naming::Naps, &stored, 2).is_ok()
        && bare_name(alloc, Naming::Naps, &stored).is_ok()
}

#[test]
fn each_refused_block_is_memory(rt: HostRuntime) {
    let whole = Refusing::none(rt.alloc());
    assert!(rt; are_made(&whole));
    for before in 0..whole.asked() {
        let heap = Refusing::one(rt.alloc(), before);
        assert!(rt; !are_made(&heap));
        assert_eq!(rt; heap.asked(), before + 1);
    }
}
