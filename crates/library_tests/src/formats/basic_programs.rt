//! Programs in Applesoft: a worked program, lines by themselves, and what is none.
use applesoft::{ListError, TokenError, list, tokens};
use std::process::Abort;
use std::test::Fail;

const HELLO: [u8; 74] = [
    0x17, 0x08, 0x0A, 0x00, 0x97, 0x3A, 0xBA, 0x22, 0x48, 0x45, 0x4C, 0x4C, 0x4F, 0x2C, 0x20, 0x57,
    0x4F, 0x52, 0x4C, 0x44, 0x22, 0x00, 0x29, 0x08, 0x14, 0x00, 0x81, 0x49, 0xD0, 0x31, 0xC1, 0x31,
    0x30, 0x3A, 0xBA, 0x49, 0x3B, 0x3A, 0x82, 0x00, 0x34, 0x08, 0x1E, 0x00, 0xB2, 0x20, 0x44, 0x4F,
    0x4E, 0x45, 0x00, 0x49, 0x08, 0x28, 0x00, 0x83, 0x20, 0x41, 0x2C, 0x20, 0x22, 0x42, 0x3A, 0x43,
    0x22, 0x2C, 0x33, 0x3A, 0xAB, 0x31, 0x30, 0x00, 0x00, 0x00,
];

const TEXT: &str =
    "10 HOME : PRINT \"HELLO, WORLD\"\n20 FOR I=1 TO 10: PRINT I;: NEXT\n30 REM  DONE\n\
    40 DATA  A, \"B:C\",3: GOTO 10\n";

const LISTED: &str =
    "10  HOME : PRINT \"HELLO, WORLD\"\n20  FOR I = 1 TO 10: PRINT I;: NEXT \n30  REM  DONE\n\
    40  DATA  A, \"B:C\",3: GOTO 10\n";

#[test]
fn a_program_is_made_and_listed(rt: HostRuntime) -> Result<(), Fail> {
    let program = tokens(rt.alloc(), TEXT.as_bytes())?;
    assert!(rt; program.as_slice() == HELLO.as_slice());
    let text = list(rt.alloc(), program.as_slice())?;
    assert!(rt; text.as_slice() == LISTED.as_bytes());
    let again = tokens(rt.alloc(), text.as_slice())?;
    assert!(rt; again.as_slice() == HELLO.as_slice());
    Ok(())
}

fn is(rt: &(impl AllocGlobal + Abort), text: &str, body: &[u8]) {
    let program = tokens(rt.alloc(), text.as_bytes());
    match &program {
        Ok(made) => {
            let is_whole = made.len() == body.len() + 7;
            assert!(rt; is_whole && &made.as_slice()[4..made.len().max(7) - 3] == body);
        }
        Err(_) => assert!(rt; false),
    }
}

fn bad(rt: &(impl AllocGlobal + Abort), text: &str, line: u64) {
    let program = tokens(rt.alloc(), text.as_bytes());
    assert!(rt; matches!(&program, Err(TokenError::BadLine(n)) if *n == line));
}

#[test]
fn lines_are_read_as_the_machine_does(rt: HostRuntime) -> Result<(), Fail> {
    bad(&rt, "10 PO?", 1);
    bad(&rt, "10 A?", 1);
    bad(&rt, "10", 1);
    bad(&rt, "10 A\n10 B", 2);
    bad(&rt, "10 A\n\n  \n9 B", 4);
    bad(&rt, "65536 A", 1);
    bad(&rt, "PRINT", 1);
    bad(&rt, "10 A\rB", 1);
    bad(&rt, "10 A\t", 1);
    bad(&rt, "10 \u{2400}", 1);
    bad(&rt, "10 A\r", 1);
    is(&rt, "  0000000000065535 A\r\n", &[0x41]);
    is(&rt, "10 \u{2409}\u{240d}", &[9, 13]);
    is(
        &rt,
        "10 IF A=1 THEN ? B",
        &[0xAD, 0x41, 0xD0, 0x31, 0xC4, 0xBA, 0x42],
    );
    is(&rt, "10 FORI=ATOB", &[0x81, 0x49, 0xD0, 0x41, 0xC1, 0x42]);
    is(&rt, "10 X=ATN(1)", &[0x58, 0xD0, 0xE1, 0x28, 0x31, 0x29]);
    is(
        &rt,
        "10 HPLOT A TO B AT N",
        &[0x93, 0x41, 0xC1, 0x42, 0xC5, 0x4E],
    );
    is(
        &rt,
        "10 ? CHR$(4)\"CATALOG\"",
        &[
            0xBA, 0xE7, 0x28, 0x34, 0x29, 0x22, 0x43, 0x41, 0x54, 0x41, 0x4C, 0x4F, 0x47, 0x22,
        ],
    );
    is(&rt, "10 ONERRGOTO 100", &[0xA5, 0xAB, 0x31, 0x30, 0x30]);
    is(
        &rt,
        "10 IF A<>B THEN 20",
        &[0xAD, 0x41, 0xD1, 0xCF, 0x42, 0xC4, 0x32, 0x30],
    );
    is(&rt, "10 NOTRACE:NOT A", &[0x9C, 0x3A, 0xC6, 0x41]);
    is(&rt, "10 HGR2:HGR", &[0x90, 0x3A, 0x91]);
    is(&rt, "10 COLOR =3", &[0xA0, 0x33]);
    is(&rt, "10 REM", &[0xB2]);
    is(&rt, "10 A$=\"X", &[0x41, 0x24, 0xD0, 0x22, 0x58]);
    is(&rt, "10 &X", &[0xAF, 0x58]);
    is(&rt, "10 SCRN(1,2)", &[0xD7, 0x31, 0x2C, 0x32, 0x29]);
    is(
        &rt,
        "10 print \"lower\"",
        &[0xBA, 0x22, 0x6C, 0x6F, 0x77, 0x65, 0x72, 0x22],
    );
    is(
        &rt,
        "10 IF A THEN 20",
        &[0xAD, 0xC5, 0x48, 0x45, 0x4E, 0x32, 0x30],
    );
    Ok(())
}

#[test]
fn what_is_no_program_is_not_listed(rt: HostRuntime) -> Result<(), Fail> {
    let none = tokens(rt.alloc(), b"\n  \n")?;
    assert!(rt; none.as_slice() == [0, 0].as_slice());
    for program in [
        [].as_slice(),
        &[0],
        &[1, 0, 1, 0, 0xeb, 0, 0, 0],
        &[1, 0, 1, 0, 65],
        &[1, 0, 1, 0, 65, 0, 0],
    ] {
        let listed = list(rt.alloc(), program);
        assert!(rt; matches!(&listed, Err(ListError::Form)));
    }
    let odd = list(
        rt.alloc(),
        &[0, 1, 0, 0, 9, 13, 0x80, 0, 1, 0, 255, 255, 0, 0, 0, 7],
    )?;
    assert!(rt; odd.as_slice() == "0 \u{2409}\u{240d} END \n65535 \n".as_bytes());
    Ok(())
}
