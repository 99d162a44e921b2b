//! Files in other forms: listings of Integer BASIC, AppleSingle files, and what is read and given in a form.
use apple_single::{FileInfo, PrintError, Single, print, read};
use apple_text::HighBit;
use file_forms::{
    FileForm, FormError, FoundFile, GivenForm, TakingError, in_form, is_taken_back, readable,
    taken_from,
};
use integer_basic::ListError;
use std::alloc::Global;
use std::process::Abort;
use std::test::Fail;
use test_volumes::Refusing;
use vol_layout::PlaceForm;

/// `10 PRINT "HI"`, `20 FOR I=1 TO 10` and `30 REM HI`.
static PROGRAM: [u8; 30] = [
    0x09, 0x0a, 0x00, 0x61, 0x28, 0xc8, 0xc9, 0x29, 0x01, 0x0e, 0x14, 0x00, 0x55, 0xc9, 0x56, 0xb1,
    0x01, 0x00, 0x57, 0xb1, 0x0a, 0x00, 0x01, 0x07, 0x1e, 0x00, 0x5d, 0xc8, 0xc9, 0x01,
];

const LISTING: &str = "   10 PRINT \"HI\"\n   20 FOR I=1 TO 10\n   30 REM HI\n";

/// The AppleSingle file of HELLO, a binary file for $0300.
static HELLO: [u8; 78] = [
    0x00, 0x05, 0x16, 0x00, 0x00, 0x02, 0x00, 0x00, 0x00, 0x00, 0x00, 0x00, 0x00, 0x00, 0x00, 0x00,
    0x00, 0x00, 0x00, 0x00, 0x00, 0x00, 0x00, 0x00, 0x00, 0x03, 0x00, 0x00, 0x00, 0x03, 0x00, 0x00,
    0x00, 0x3e, 0x00, 0x00, 0x00, 0x05, 0x00, 0x00, 0x00, 0x0b, 0x00, 0x00, 0x00, 0x43, 0x00, 0x00,
    0x00, 0x08, 0x00, 0x00, 0x00, 0x01, 0x00, 0x00, 0x00, 0x4b, 0x00, 0x00, 0x00, 0x03, 0x48, 0x45,
    0x4c, 0x4c, 0x4f, 0x00, 0xc3, 0x00, 0x06, 0x00, 0x00, 0x03, 0x00, 0xa9, 0x00, 0x60,
];

static BODY: [u8; 3] = [0xa9, 0x00, 0x60];

/// What ProDOS says of HELLO.
const INFO: FileInfo = FileInfo {
    access: 0xc3,
    file_type: 0x06,
    aux_type: 0x0300,
};

#[test]
fn a_program_in_integer_basic_is_listed(rt: HostRuntime) -> Result<(), Fail> {
    let listed = integer_basic::list(rt.alloc(), &PROGRAM)?;
    assert!(rt; listed.as_slice() == LISTING.as_bytes());
    assert!(rt;
        matches!(
            integer_basic::list(rt.alloc(), &[3, 0, 1]),
            Err(ListError::Form)
        )
    );
    Ok(())
}

#[test]
fn an_apple_single_file_is_printed_and_read(rt: HostRuntime) -> Result<(), Fail> {
    let printed = print(rt.alloc(), b"HELLO", INFO, &BODY)?;
    assert!(rt; printed.as_slice() == HELLO.as_slice());
    let single = Single {
        info: Some(INFO),
        fork: &BODY,
    };
    assert!(rt; read(&HELLO) == Some(single));
    assert!(rt; read(&HELLO[..77]).is_none());
    Ok(())
}

/// What the compiler `cl65` writes for a program at $0803 of two bytes: the data before the file info in the list of
/// entries, and behind it in the file.
#[test]
fn an_apple_single_file_of_another_program_is_read(rt: HostRuntime) {
    let mut file = [0; 60];
    file[..8].copy_from_slice(&[0x00, 0x05, 0x16, 0x00, 0x00, 0x02, 0x00, 0x00]);
    file[25] = 2;
    file[29] = 1;
    file[33] = 0x3a;
    file[37] = 2;
    file[41] = 0x0b;
    file[45] = 0x32;
    file[49] = 8;
    file[50..58].copy_from_slice(&[0x00, 0xc3, 0x00, 0x06, 0x00, 0x00, 0x08, 0x03]);
    file[58..].copy_from_slice(&[0xea, 0x60]);
    let info = FileInfo {
        access: 0xc3,
        file_type: 0x06,
        aux_type: 0x0803,
    };
    let single = Single {
        info: Some(info),
        fork: &[0xea, 0x60],
    };
    assert!(rt; read(&file) == Some(single));
}

/// A file of DOS 3.3 with this type of ProDOS, whole text and body.
fn file_of<'a>(file_type: u8, whole: &'a [u8], body: &'a [u8]) -> FoundFile<'a> {
    FoundFile {
        system: PlaceForm::Sector,
        name: b"HELLO",
        info: FileInfo { file_type, ..INFO },
        whole,
        body,
    }
}

/// A text of DOS 3.3, and the rest of its sector.
static LETTER: [u8; 8] = [0xc8, 0xc9, 0xa0, 0x84, 0xc4, 0x8d, 0x00, 0x00];

const SHOWN: &str = "HI \u{2404}D\n";

/// `10 HOME`.
static HOME: [u8; 8] = [0x07, 0x08, 0x0a, 0x00, 0x97, 0x00, 0x00, 0x00];

/// Whether a file has this form.
fn has_form(
    rt: &impl Abort,
    alloc: Global,
    form: FileForm,
    file: &FoundFile<'_>,
    wanted: &[u8],
) -> Result<(), FormError> {
    let shown = in_form(alloc, form, file)?;
    assert!(rt; shown.as_slice() == wanted, "{form:?}");
    Ok(())
}

#[test]
fn a_file_has_forms(rt: HostRuntime) -> Result<(), Fail> {
    let letter = file_of(0x04, &LETTER, &LETTER);
    has_form(&rt, rt.alloc(), FileForm::Text, &letter, SHOWN.as_bytes())?;
    let home = file_of(0xfc, &HOME, &HOME);
    has_form(&rt, rt.alloc(), FileForm::Applesoft, &home, b"10  HOME \n")?;
    let program = file_of(0xfa, &PROGRAM, &PROGRAM);
    has_form(
        &rt,
        rt.alloc(),
        FileForm::Integer,
        &program,
        LISTING.as_bytes(),
    )?;
    let binary = file_of(0x06, &BODY, &BODY);
    has_form(&rt, rt.alloc(), FileForm::Single, &binary, &HELLO)?;
    assert!(rt;
        matches!(
            in_form(rt.alloc(), FileForm::Applesoft, &letter),
            Err(FormError::Form)
        )
    );
    Ok(())
}

#[test]
fn a_form_is_that_of_a_type(rt: HostRuntime) {
    for (file_type, form) in [
        (0x04, Some(FileForm::Text)),
        (0xfa, Some(FileForm::Integer)),
        (0xfc, Some(FileForm::Applesoft)),
        (0x06, None),
    ] {
        assert!(rt; FileForm::of_type(file_type) == form, "{file_type}");
    }
}

/// The form by its type of a file whose form gives its bytes back.
fn is_readable(
    rt: &impl Abort,
    alloc: Global,
    file: &FoundFile<'_>,
    wanted: Option<&str>,
) -> Result<(), Fail> {
    let text = readable(alloc, file)?;
    let text = text.as_ref().map(|text| text.as_slice());
    assert!(rt; text == wanted.map(|text| text.as_bytes()));
    Ok(())
}

#[test]
fn a_form_gives_the_bytes_back_or_not(rt: HostRuntime) -> Result<(), Fail> {
    let mut behind = LETTER;
    behind[7] = 1;
    let mut low = LETTER;
    low[1] = 0x49;
    let home = Some("10  HOME \n");
    let letter = file_of(0x04, &LETTER, &LETTER);
    is_readable(&rt, rt.alloc(), &letter, Some(SHOWN))?;
    is_readable(&rt, rt.alloc(), &file_of(0x04, &behind, &behind), None)?;
    is_readable(&rt, rt.alloc(), &file_of(0x04, &low, &low), None)?;
    is_readable(&rt, rt.alloc(), &file_of(0xfc, &HOME, &HOME), home)?;
    is_readable(&rt, rt.alloc(), &file_of(0xfa, &PROGRAM, &PROGRAM), None)?;
    Ok(())
}

/// Whether just the bytes of a file are taken from a text.
fn comes_back(
    rt: &impl Abort,
    alloc: Global,
    form: FileForm,
    file: &FoundFile<'_>,
    given: &str,
    wanted: bool,
) -> Result<(), Fail> {
    let is_taken = is_taken_back(alloc, form, file, given.as_bytes())?;
    assert!(rt; is_taken == wanted, "{given}");
    Ok(())
}

#[test]
fn a_text_of_somebody_gives_the_bytes_back_or_not(rt: HostRuntime) -> Result<(), Fail> {
    let mut behind = LETTER;
    behind[7] = 1;
    let letter = file_of(0x04, &LETTER, &LETTER);
    let spoiled = file_of(0x04, &behind, &behind);
    let home = file_of(0xfc, &HOME, &HOME);
    let alloc = rt.alloc();
    comes_back(&rt, alloc, FileForm::Text, &letter, SHOWN, true)?;
    comes_back(
        &rt,
        alloc,
        FileForm::Text,
        &letter,
        "HI \u{2404}D\r\n",
        true,
    )?;
    comes_back(
        &rt,
        alloc,
        FileForm::Text,
        &letter,
        "HI \u{2404}D\n\n",
        false,
    )?;
    comes_back(&rt, alloc, FileForm::Text, &letter, "HI \u{2404}", false)?;
    comes_back(&rt, alloc, FileForm::Text, &letter, "", false)?;
    comes_back(&rt, alloc, FileForm::Text, &letter, "\u{e9}", false)?;
    comes_back(&rt, alloc, FileForm::Text, &spoiled, SHOWN, false)?;
    comes_back(&rt, alloc, FileForm::Applesoft, &home, "10 home", true)?;
    comes_back(&rt, alloc, FileForm::Applesoft, &home, "20 HOME\n", false)?;
    comes_back(&rt, alloc, FileForm::Applesoft, &home, "HOME", false)?;
    let program = file_of(0xfa, &PROGRAM, &PROGRAM);
    comes_back(&rt, alloc, FileForm::Integer, &program, LISTING, false)?;
    Ok(())
}

/// What is given in a form gives such a file on a volume of DOS 3.3.
fn gives(
    rt: &impl Abort,
    alloc: Global,
    form: GivenForm,
    given: &[u8],
    file_type: Option<u8>,
    aux_type: Option<u16>,
    bytes: &[u8],
) -> Result<(), TakingError> {
    let file = taken_from(alloc, PlaceForm::Sector, form, given)?;
    assert!(rt;
        file.file_type == file_type && file.aux_type == aux_type,
        "{form:?}"
    );
    assert!(rt; file.bytes.as_slice() == bytes, "{form:?}");
    Ok(())
}

#[test]
fn a_file_is_given_in_a_form(rt: HostRuntime) -> Result<(), Fail> {
    let text = GivenForm::Text(HighBit::On);
    gives(
        &rt,
        rt.alloc(),
        text,
        SHOWN.as_bytes(),
        Some(0x04),
        None,
        &LETTER[..6],
    )?;
    let program = GivenForm::Applesoft;
    gives(
        &rt,
        rt.alloc(),
        program,
        b"10 home",
        Some(0xfc),
        Some(0x0801),
        &HOME,
    )?;
    gives(
        &rt,
        rt.alloc(),
        GivenForm::Single,
        &HELLO,
        Some(0x06),
        Some(0x0300),
        &BODY,
    )?;
    Ok(())
}

/// Why no file is given.
fn error_of(alloc: Global, form: GivenForm, given: &[u8]) -> Option<TakingError> {
    taken_from(alloc, PlaceForm::Sector, form, given).err()
}

#[test]
fn what_can_t_be_taken_is_told(rt: HostRuntime) {
    let low = GivenForm::Text(HighBit::Off);
    let null = "A\nB\u{2400}\n".as_bytes();
    assert!(rt; error_of(rt.alloc(), low, null) == Some(TakingError::BadLine(2)));
    let bad = Some(TakingError::BadLine(1));
    assert!(rt; error_of(rt.alloc(), GivenForm::Applesoft, b"10 A?") == bad);
    let none = Some(TakingError::Single);
    assert!(rt; error_of(rt.alloc(), GivenForm::Single, &BODY) == none);
}

#[derive(Clone, Copy, Debug)]
enum Call {
    List,
    Print,
    Show,
    Read,
    Take,
    TakeBack,
}

// Whether a call over a heap answers want of memory.
fn has_no_memory(call: Call, heap: &Refusing<Global>) -> bool {
    let binary = file_of(0x06, &BODY, &BODY);
    let home = file_of(0xfc, &HOME, &HOME);
    match call {
        Call::List => matches!(&integer_basic::list(heap, &PROGRAM), Err(ListError::Memory)),
        Call::Print => matches!(&print(heap, b"HELLO", INFO, &BODY), Err(PrintError::Memory)),
        Call::Show => matches!(
            &in_form(heap, FileForm::Single, &binary),
            Err(FormError::Memory)
        ),
        Call::Read => readable(heap, &home).is_err(),
        Call::Take => matches!(
            &taken_from(heap, PlaceForm::Sector, GivenForm::Single, &HELLO),
            Err(TakingError::Memory)
        ),
        Call::TakeBack => is_taken_back(heap, FileForm::Applesoft, &home, b"10 HOME").is_err(),
    }
}

#[test]
fn each_refused_block_is_told(rt: HostRuntime) {
    for call in [
        Call::List,
        Call::Print,
        Call::Show,
        Call::Read,
        Call::Take,
        Call::TakeBack,
    ] {
        let heap = Refusing::none(rt.alloc());
        assert!(rt; !has_no_memory(call, &heap) && heap.asked() > 0, "{call:?}");
        for before in 0..heap.asked() {
            let refusing = Refusing::one(rt.alloc(), before);
            assert!(rt; has_no_memory(call, &refusing), "{call:?} {before}");
        }
    }
}
