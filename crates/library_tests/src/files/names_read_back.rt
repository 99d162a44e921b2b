// What names on the host say of entries.
use host_folders::{Content, file_beside, file_of, folder_of};
use std::alloc::{AllocError, Allocator, Global};
use std::test::Fail;
use test_volumes::Refusing;
use vol_layout::PlaceForm;

// Whether a name says a file of this stored name, and of this type and aux type, whose bytes are this.
fn says(
    alloc: Global,
    form: PlaceForm,
    name: &str,
    stored: &[u8],
    types: (u8, u16),
    content: Content,
) -> Result<bool, AllocError> {
    Ok(match file_of(alloc, form, name)? {
        Some(file) => {
            file.name.as_slice() == stored
                && file.file_type == types.0
                && file.aux_type == types.1
                && file.content == content
        }
        None => false,
    })
}

// Whether a name says a file of type $06 and aux type $0300 of this stored name.
fn says_binary(
    alloc: Global,
    form: PlaceForm,
    name: &str,
    stored: &[u8],
) -> Result<bool, AllocError> {
    says(alloc, form, name, stored, (0x06, 0x0300), Content::Bytes)
}

// Whether a name says no file.
fn says_no_file(alloc: Global, form: PlaceForm, name: &str) -> Result<bool, AllocError> {
    Ok(file_of(alloc, form, name)?.is_none())
}

// Whether a name says a folder of ProDOS of this stored name.
fn says_folder(alloc: Global, name: &str, stored: &[u8]) -> Result<bool, AllocError> {
    Ok(match folder_of(alloc, PlaceForm::Block, name)? {
        Some(found) => found.as_slice() == stored,
        None => false,
    })
}

#[test]
fn plain_names(rt: HostRuntime) -> Result<(), Fail> {
    let alloc = rt.alloc();
    let dos = PlaceForm::Sector;
    let pro = PlaceForm::Block;
    assert!(rt; says_binary(alloc, dos, "HELLO#060300", b"\xc8\xc5\xcc\xcc\xcf")?);
    assert!(rt; says_binary(alloc, pro, "HELLO#060300", b"HELLO")?);
    assert!(rt; says_binary(alloc, pro, "HELLO~2#060300", b"HELLO")?);
    assert!(rt; says_binary(alloc, pro, "HELLO~1000#060300", b"HELLO")?);
    assert!(rt; says_binary(alloc, pro, "A#040000#060300", b"A#040000")?);
    assert!(rt; says(alloc, pro, "A#FcAbCd", b"A", (0xfc, 0xabcd), Content::Bytes)?);
    assert!(rt; says(alloc, pro, "A#00007e", b"A", (0x00, 0x007e), Content::Bytes)?);
    Ok(())
}

#[test]
fn escaped_names(rt: HostRuntime) -> Result<(), Fail> {
    let alloc = rt.alloc();
    let dos = PlaceForm::Sector;
    let pro = PlaceForm::Block;
    assert!(rt; says_binary(alloc, pro, "I%2fO%2FX#060300", b"I/O/X")?);
    assert!(rt; says_binary(alloc, pro, "50%% OFF#060300", b"50% OFF")?);
    assert!(rt; says_binary(alloc, pro, "%%41#060300", b"%41")?);
    assert!(rt; says_binary(alloc, dos, "%%%%#060300", b"\xa5\xa5")?);
    assert!(rt; says_binary(alloc, pro, "A%7f%80#060300", b"A\x7f\x80")?);
    assert!(rt; says_binary(alloc, dos, "%43ON.X~2#060300", b"\xc3\xcf\xce\xae\xd8")?);
    assert!(rt; says_binary(alloc, dos, "%7f%2f%2f#060300", b"\x2f\xaf")?);
    assert!(rt;
        says_binary(
            alloc,
            dos,
            "%7F%7f%ff%00%1f%80%9f#060300",
            b"\x7f\xff\x00\x1f\x80\x9f"
        )?
    );
    assert!(rt; says_binary(alloc, dos, "%~2#060300", b"")?);
    Ok(())
}

#[test]
fn names_that_say_no_file(rt: HostRuntime) -> Result<(), Fail> {
    let alloc = rt.alloc();
    let dos = PlaceForm::Sector;
    let pro = PlaceForm::Block;
    for name in [
        "",
        "HELLO",
        "HELLO.txt",
        "#060300",
        "~2#060300",
        "A#06030",
        "A#0603000",
        "A#06030g",
        "A#060300#",
        "A~#060300",
        "A~2~3#060300",
        "A~x#060300",
        "A%#060300",
        "%%%#060300",
        "A%4#060300",
        "A%4g#060300",
        "A\"#060300",
        "A/B#060300",
        "A\n#060300",
        "\u{e9}#060300",
    ] {
        assert!(rt; says_no_file(alloc, dos, name)?);
        assert!(rt; says_no_file(alloc, pro, name)?);
    }
    for name in [
        "A%7f#060300",
        "A%7fB#060300",
        "%7f%1f#060300",
        "%7f%80#060300",
        "%a0#060300",
        "%fe#060300",
    ] {
        assert!(rt; says_no_file(alloc, dos, name)?);
        assert!(rt; !says_no_file(alloc, pro, name)?);
    }
    Ok(())
}

#[test]
fn what_stands_behind_the_digits(rt: HostRuntime) -> Result<(), Fail> {
    let alloc = rt.alloc();
    let pro = PlaceForm::Block;
    assert!(rt; says(alloc, pro, "A#040000.TXT", b"A", (0x04, 0), Content::Bytes)?);
    assert!(rt;
        says(
            alloc,
            pro,
            "A#fc0801.b",
            b"A",
            (0xfc, 0x0801),
            Content::Bytes
        )?
    );
    assert!(rt;
        says(
            alloc,
            pro,
            "A#040000.utf8.txt",
            b"A",
            (0x04, 0),
            Content::Text
        )?
    );
    assert!(rt;
        says(
            alloc,
            pro,
            "A#fc0801.utf8.txt",
            b"A",
            (0xfc, 0x0801),
            Content::Program
        )?
    );
    for name in [
        "A#060300.utf8.txt",
        "A#fa0000.utf8.txt",
        "A#040000.UTF8.TXT",
        "A#040000.utf8.txt.utf8.txt",
        "A#040000.txt.utf8.txt",
        "A#040000.text",
        "A#040000.",
        "A#040000.t-t",
        "A#040000txt",
    ] {
        assert!(rt; says_no_file(alloc, pro, name)?);
    }
    Ok(())
}

#[test]
fn folders(rt: HostRuntime) -> Result<(), Fail> {
    let alloc = rt.alloc();
    assert!(rt; says_folder(alloc, "Sub.A", b"Sub.A")?);
    assert!(rt; says_folder(alloc, "SUB~12", b"SUB")?);
    assert!(rt; says_folder(alloc, "A%2f#060300", b"A/#060300")?);
    assert!(rt; says_folder(alloc, "%", b"")?);
    assert!(rt; folder_of(alloc, PlaceForm::Block, "")?.is_none());
    assert!(rt; folder_of(alloc, PlaceForm::Block, "~2")?.is_none());
    assert!(rt; folder_of(alloc, PlaceForm::Block, "A:B")?.is_none());
    Ok(())
}

#[test]
fn texts_beside_files(rt: HostRuntime) {
    assert!(rt; file_beside("A#040000.utf8.txt") == Some("A#040000"));
    assert!(rt; file_beside(".utf8.txt") == Some(""));
    assert!(rt; file_beside("A#040000.txt").is_none());
    assert!(rt; file_beside("A#040000.UTF8.TXT").is_none());
}

// Whether there was memory for what a name says.
fn are_read<A: Allocator + Copy>(alloc: A) -> bool {
    file_of(alloc, PlaceForm::Sector, "THE LONG NAME OF A FILE#060300").is_ok()
        && folder_of(alloc, PlaceForm::Block, "FOLDER").is_ok()
}

#[test]
fn each_refused_block_is_memory(rt: HostRuntime) {
    let whole = Refusing::none(rt.alloc());
    assert!(rt; are_read(&whole));
    for before in 0..whole.asked() {
        let heap = Refusing::one(rt.alloc(), before);
        assert!(rt; !are_read(&heap));
        assert_eq!(rt; heap.asked(), before + 1);
    }
}
