//! The line of an output that can't be written.
use shop_outputs::{Ending, Unwritten, tell_output};
use std::alloc::{AllocError, Global};
use std::test::Fail;

/// What is told behind `text`, and the status.
fn told(alloc: Global, unwritten: Unwritten) -> Result<(Vec<u8>, u8), AllocError> {
    let mut text = Vec::from_slice(alloc, b"text\n")?;
    let ending = tell_output(Ending::stopped(unwritten), &mut text);
    Ok((text, ending.status))
}

#[test]
fn what_was_not_written_before_the_text_is_told(rt: HostRuntime) -> Result<(), Fail> {
    for unwritten in [Unwritten::Image, Unwritten::Folder] {
        let (text, status) = told(rt.alloc(), unwritten)?;
        assert!(rt; text.as_slice() == b"text\nFAILED Output\n".as_slice());
        assert!(rt; status == 4);
    }
    Ok(())
}

#[test]
fn what_was_not_written_behind_the_text_is_not(rt: HostRuntime) -> Result<(), Fail> {
    for unwritten in [
        Unwritten::Text,
        Unwritten::ImageAfterText,
        Unwritten::FolderAfterText,
        Unwritten::CertificateAfterImage,
    ] {
        let (text, status) = told(rt.alloc(), unwritten)?;
        assert!(rt; text.as_slice() == b"text\n".as_slice());
        assert!(rt; status == 4);
    }
    Ok(())
}
