//! The texts of certificates, what is read of them, and which are good.

use crate::moves::examples::{RINGS_AND_HOLE, in_reverse_order, layout_in};
use move_plan::plan;
use ring_cert::{Cert, CertError, CertFault, print, read, verify};
use std::alloc::{AllocError, Global};
use std::test::Fail;
use test_volumes::Refusing;
use vol_layout::{Layout, Move};

/// The certificate of the plan that exchanges two parts over three places, line by line.
static LINES: [&str; 12] = [
    "A2CERT 1",
    "PARTS 2 PLACES 3",
    "AT 1",
    "AT 0",
    "OFF 0",
    "OFF 1",
    "RING 0 1",
    "BOUND 3",
    "MOVE 0 2",
    "MOVE 1 1",
    "MOVE 0 0",
    "END",
];

/// The certificate with other text in place of one line, counted from 1.
fn with_line(alloc: Global, number: usize, other: &str) -> Result<Vec<u8>, AllocError> {
    let mut text = Vec::new(alloc);
    for (before, line) in LINES.iter().enumerate() {
        let line = if before + 1 == number { other } else { *line };
        text.extend_from_slice(line.as_bytes())?;
        text.push(b'\n')?;
    }
    Ok(text)
}

/// What is wrong with a certificate for the layout of `LINES`.
fn fault_of(alloc: Global, text: &[u8]) -> Result<Option<CertFault>, Fail> {
    let layout = layout_in(alloc, &[1, 0], 3)?;
    let cert = read(alloc, text)?;
    Ok(verify(alloc, &layout, &cert).err())
}

/// The text of the certificate of the plan for a layout.
fn certificate_of(alloc: Global, layout: &Layout) -> Result<Vec<u8>, Fail> {
    let found = plan(alloc, layout)?;
    if found.misplaced.len() > 1_000_000 || found.rings.len() > 1_000_000 {
        return Err("a bound that is too large")?;
    }
    Ok(print(alloc, layout, &found)?)
}

#[test]
fn printed_texts(rt: HostRuntime) -> Result<(), Fail> {
    let rows = [
        (
            [1, 0].as_slice(),
            496,
            b"A2CERT 1\nPARTS 2 PLACES 496\nAT 1\nAT 0\nOFF 0\nOFF 1\nRING 0 1\nBOUND 3\nMOVE 0 2\nMOVE 1 1\nMOVE 0 \
                0\nEND\n"
                .as_slice(),
        ),
        (&[], 3, b"A2CERT 1\nPARTS 0 PLACES 3\nBOUND 0\nEND\n"),
    ];
    for (at, places, text) in rows {
        let layout = layout_in(rt.alloc(), at, places)?;
        let printed = certificate_of(rt.alloc(), &layout)?;
        assert!(rt; printed.as_slice() == text);
    }
    Ok(())
}

fn step(part: u32, to: u32) -> Move {
    Move { part, to }
}

/// Whether a certificate has one ring, of these numbers.
fn has_ring(cert: &Cert, numbers: &[u32]) -> bool {
    match cert.rings.as_slice() {
        [ring] => ring.numbers() == numbers,
        _ => false,
    }
}

/// Whether a certificate is that of `LINES`, where the first part stands at a place.
fn tells(cert: &Cert, first: u32) -> bool {
    (cert.places, cert.bound) == (3, 3)
        && cert.at.as_slice() == [first, 0].as_slice()
        && cert.off.as_slice() == [0, 1].as_slice()
        && has_ring(cert, &[0, 1])
        && cert.moves.as_slice() == [step(0, 2), step(1, 1), step(0, 0)].as_slice()
}

/// Whether that is read where the third line is another.
fn is_read(alloc: Global, line: &str, first: u32) -> Result<bool, Fail> {
    let text = with_line(alloc, 3, line)?;
    Ok(tells(&read(alloc, text.as_slice())?, first))
}

#[test]
fn what_is_read(rt: HostRuntime) -> Result<(), Fail> {
    assert!(rt; is_read(rt.alloc(), "AT 1", 1)?);
    assert!(rt; is_read(rt.alloc(), "AT 4294967295", 4_294_967_295)?);
    Ok(())
}

/// Lines in place of others, and the first that then cannot stand.
static CHANGED: [(usize, &str, usize); 17] = [
    (8, "BOUND 03", 8),
    (8, "BOUND 4294967296", 8),
    (3, "AT 4294967296", 3),
    (3, "AT ", 3),
    (5, "OFF  0", 5),
    (5, "off 0", 5),
    (7, "RING", 7),
    (7, "RING 0 1 ", 7),
    (7, "RING 0 1\r", 7),
    (7, "RING 0 1\nOFF 1", 8),
    (9, "MOVE 0 2 1", 9),
    (1, "A2CERT 01", 1),
    (2, "PARTS 3 PLACES 3", 5),
    (2, "PARTS 1 PLACES 3", 4),
    (12, "MOVE 1 0", 13),
    (12, "END\nEND", 13),
    (12, "END\n", 13),
];

/// Why a text is no certificate.
fn error_of(alloc: Global, text: &[u8]) -> Option<CertError> {
    read(alloc, text).err()
}

/// Why the certificate with other text in place of one line is none.
fn error_with(alloc: Global, number: usize, line: &str) -> Result<Option<CertError>, AllocError> {
    Ok(error_of(alloc, with_line(alloc, number, line)?.as_slice()))
}

#[test]
fn lines_that_cannot_stand(rt: HostRuntime) -> Result<(), Fail> {
    for (number, line, fault) in &CHANGED {
        let error = error_with(rt.alloc(), *number, line)?;
        assert!(rt;
            error == Some(CertError::Syntax(*fault)),
            "{line:?} as line {number}"
        );
    }
    Ok(())
}

/// Texts that end too soon or go on, and the first line that cannot stand.
static OTHER_ENDS: [(&str, usize); 5] = [
    ("", 1),
    ("A2CERT 1", 1),
    ("A2CERT 1\n", 2),
    ("A2CERT 1\nPARTS 0 PLACES 3\nBOUND 0\nEND", 4),
    ("A2CERT 1\nPARTS 0 PLACES 3\nBOUND 0\nEND\nx", 5),
];

#[test]
fn texts_that_end_too_soon_or_go_on(rt: HostRuntime) {
    for (text, fault) in &OTHER_ENDS {
        let error = error_of(rt.alloc(), text.as_bytes());
        assert!(rt; error == Some(CertError::Syntax(*fault)), "{text:?}");
    }
}

/// Lines in place of others, and what is then wrong with the certificate.
static FAULTS: [(usize, &str, Option<CertFault>); 12] = [
    (8, "BOUND 3", None),
    (7, "RING 0 1\nRING 0 1", Some(CertFault::Repeated(0))),
    (7, "RING 0", Some(CertFault::NotARing(0))),
    (6, "OFF 1\nOFF 2", Some(CertFault::NotMisplaced(2))),
    (6, "OFF 1\nOFF 0", Some(CertFault::Repeated(0))),
    (7, "RING 7 0 7", Some(CertFault::Repeated(7))),
    (7, "RING 0 7", Some(CertFault::NotARing(0))),
    (9, "MOVE 0 1", Some(CertFault::IllegalMove(0))),
    (11, "MOVE 2 0", Some(CertFault::IllegalMove(2))),
    (8, "BOUND 4", Some(CertFault::Sum)),
    (6, "OFF 0", Some(CertFault::Repeated(0))),
    (2, "PARTS 2 PLACES 4", Some(CertFault::OtherLayout)),
];

/// What is wrong with the certificate with other text in place of one line.
fn fault_with(alloc: Global, number: usize, line: &str) -> Result<Option<CertFault>, Fail> {
    fault_of(alloc, with_line(alloc, number, line)?.as_slice())
}

#[test]
fn good_and_refused(rt: HostRuntime) -> Result<(), Fail> {
    for (number, line, fault) in &FAULTS {
        let found = fault_with(rt.alloc(), *number, line)?;
        assert!(rt; found == *fault, "{line:?} as line {number}");
    }
    Ok(())
}

#[test]
fn plans_that_end_elsewhere(rt: HostRuntime) -> Result<(), Fail> {
    let elsewhere =
        b"A2CERT 1\nPARTS 2 PLACES 3\nAT 1\nAT 0\nOFF 0\nOFF 1\nRING 0 1\nBOUND 2\nMOVE 0 2\nMOVE 1 1\nEND\n";
    assert!(rt; fault_of(rt.alloc(), elsewhere)? == Some(CertFault::NotAtTarget));
    Ok(())
}

#[test]
fn bounds_that_do_not_add_up(rt: HostRuntime) -> Result<(), Fail> {
    let one_left_out =
        b"A2CERT 1\nPARTS 2 PLACES 3\nAT 1\nAT 0\nOFF 0\nRING 0 1\nBOUND 3\nMOVE 0 2\nMOVE 1 1\nMOVE 0 0\nEND\n";
    assert!(rt; fault_of(rt.alloc(), one_left_out)? == Some(CertFault::Sum));
    Ok(())
}

#[test]
fn a_ring_told_twice(rt: HostRuntime) -> Result<(), Fail> {
    let layout = layout_in(rt.alloc(), &RINGS_AND_HOLE, 496)?;
    let text =
        b"A2CERT 1\nPARTS 6 PLACES 496\nAT 6\nAT 2\nAT 1\nAT 4\nAT 5\nAT 3\nOFF 1\nRING 1 2\nRING 2 1\nBOUND 3\nEND\n";
    let cert = read(rt.alloc(), text)?;
    assert!(rt; verify(rt.alloc(), &layout, &cert).err() == Some(CertFault::Repeated(2)));
    Ok(())
}

/// The certificate of 65,000 parts in reverse order is printed, read and good.
#[test]
fn parts_in_reverse_order(rt: HostRuntime) -> Result<(), Fail> {
    let layout = in_reverse_order(rt.alloc())?;
    let text = certificate_of(rt.alloc(), &layout)?;
    let cert = read(rt.alloc(), text.as_slice())?;
    assert!(rt; cert.bound == 97_500);
    assert!(rt; verify(rt.alloc(), &layout, &cert).is_ok());
    Ok(())
}

/// Whether the certificate of the plan for a layout is printed over a heap, and how many blocks that asks for.
fn printed_over(
    alloc: Global,
    layout: &Layout,
    heap: Refusing<Global>,
) -> Result<(bool, u64), Fail> {
    let found = plan(alloc, layout)?;
    if found.misplaced.len() > 1_000_000 || found.rings.len() > 1_000_000 {
        return Err("a bound that is too large")?;
    }
    let is_printed = print(&heap, layout, &found).is_ok();
    Ok((is_printed, heap.asked()))
}

/// Where a block is refused, the answer is want of memory, and no block is asked after it.
#[test]
fn each_block_of_a_text_refused(rt: HostRuntime) -> Result<(), Fail> {
    let layout = layout_in(rt.alloc(), &RINGS_AND_HOLE, 496)?;
    let (is_printed, asked) = printed_over(rt.alloc(), &layout, Refusing::none(rt.alloc()))?;
    assert!(rt; is_printed && asked > 1);
    for before in 0..asked {
        let answer = printed_over(rt.alloc(), &layout, Refusing::one(rt.alloc(), before))?;
        assert!(rt; answer == (false, before + 1));
    }
    Ok(())
}

/// Why a text is not read over a heap, and how many blocks that asks for.
fn read_over(text: &[u8], heap: Refusing<Global>) -> (Option<CertError>, u64) {
    let error = read(&heap, text).err();
    (error, heap.asked())
}

#[test]
fn each_block_of_a_certificate_refused(rt: HostRuntime) -> Result<(), Fail> {
    let text = certificate_of(rt.alloc(), &layout_in(rt.alloc(), &RINGS_AND_HOLE, 496)?)?;
    let (error, asked) = read_over(text.as_slice(), Refusing::none(rt.alloc()));
    assert!(rt; error.is_none() && asked > 5);
    for before in 0..asked {
        let answer = read_over(text.as_slice(), Refusing::one(rt.alloc(), before));
        assert!(rt; answer == (Some(CertError::Memory), before + 1));
    }
    Ok(())
}

/// What is wrong with a certificate for the layout of `LINES` where it is verified over a heap, and how many blocks
/// that asks for.
fn verified_over(
    alloc: Global,
    cert: &Cert,
    heap: Refusing<Global>,
) -> Result<(Option<CertFault>, u64), Fail> {
    let layout = layout_in(alloc, &[1, 0], 3)?;
    let fault = verify(&heap, &layout, cert).err();
    Ok((fault, heap.asked()))
}

/// Certificates by one of their lines, and what is wrong with each.
static VERDICTS: [(usize, &str, Option<CertFault>); 2] = [
    (8, "BOUND 3", None),
    (7, "RING 7 0 7", Some(CertFault::Repeated(7))),
];

#[test]
fn each_block_of_a_verdict_refused(rt: HostRuntime) -> Result<(), Fail> {
    for (number, line, stated) in &VERDICTS {
        let cert = read(rt.alloc(), with_line(rt.alloc(), *number, line)?.as_slice())?;
        let (fault, asked) = verified_over(rt.alloc(), &cert, Refusing::none(rt.alloc()))?;
        assert!(rt; fault == *stated && asked > 1);
        for before in 0..asked {
            let answer = verified_over(rt.alloc(), &cert, Refusing::one(rt.alloc(), before))?;
            assert!(rt; answer == (Some(CertFault::Memory), before + 1));
        }
    }
    Ok(())
}
