//! Texts of the Apple II: worked bytes, every byte by itself, and texts that show none.
use apple_text::{HighBit, TakeError, TextForm, bytes_of, text_of};
use std::process::Abort;
use std::test::Fail;

const ON: TextForm = TextForm {
    high: HighBit::On,
    zeros: true,
};

const OFF: TextForm = TextForm {
    high: HighBit::Off,
    zeros: true,
};

const WITHOUT_ZEROS: TextForm = TextForm {
    high: HighBit::Off,
    zeros: false,
};

#[test]
fn a_text_is_shown_and_taken_back(rt: HostRuntime) -> Result<(), Fail> {
    let text = text_of(rt.alloc(), &[0xc8, 0xc9, 0xa0, 0x84, 0xc4, 0x8d])?;
    assert!(rt; text.as_slice() == [0x48, 0x49, 0x20, 0xe2, 0x90, 0x84, 0x44, 0x0a].as_slice());
    let bytes = bytes_of(rt.alloc(), ON, text.as_slice())?;
    assert!(rt; bytes.as_slice() == [0xc8, 0xc9, 0xa0, 0x84, 0xc4, 0x8d].as_slice());
    Ok(())
}

#[test]
fn each_byte_is_taken_back(rt: HostRuntime) -> Result<(), Fail> {
    for byte in 0..=255u8 {
        let text = text_of(rt.alloc(), &[byte])?;
        let form = if byte < 128 { OFF } else { ON };
        let bytes = bytes_of(rt.alloc(), form, text.as_slice())?;
        assert!(rt; bytes.as_slice() == [byte].as_slice());
        let zero = bytes_of(rt.alloc(), WITHOUT_ZEROS, text.as_slice());
        assert!(rt; matches!(&zero, Err(TakeError::BadLine(1))) == (byte % 128 == 0));
    }
    Ok(())
}

fn refused(rt: &(impl Alloc + Abort), text: &[u8], line: u64) {
    let taken = bytes_of(rt.alloc(), ON, text);
    assert!(rt; matches!(&taken, Err(TakeError::BadLine(n)) if *n == line));
}

#[test]
fn the_first_line_that_shows_no_bytes_is_told(rt: HostRuntime) -> Result<(), Fail> {
    refused(&rt, b"A\rB", 1);
    refused(&rt, b"A\n\r", 2);
    refused(&rt, b"A\r\n\r\r\n", 2);
    refused(&rt, b"\n\n\x01\n\x02", 3);
    refused(&rt, &[0xe2, 0x90], 1);
    refused(&rt, &[0xe2, 0x90, 0x89], 1);
    refused(&rt, &[0xe2, 0x90, 0x8d], 1);
    refused(&rt, &[0xe2, 0x90, 0xa0], 1);
    refused(&rt, &[0xe2, 0x90, 0xa2], 1);
    refused(&rt, &[0xc1, 0x81], 1);
    refused(&rt, &[0xed, 0xa0, 0x80], 1);
    refused(&rt, &[10, 0xc3, 0xa9], 2);
    refused(&rt, &[0x7f], 1);
    let empty = bytes_of(rt.alloc(), ON, &[])?;
    assert!(rt; empty.is_empty());
    let ends = bytes_of(rt.alloc(), OFF, b"A\r\nB\t\n")?;
    assert!(rt; ends.as_slice() == b"A\rB\t\r".as_slice());
    Ok(())
}
