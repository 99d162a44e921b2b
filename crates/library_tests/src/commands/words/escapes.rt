// Control characters in words that are refused.
use shop_help::{WordsFault, parse_words};
use std::alloc::{AllocError, Global};
use std::process::Abort;
use std::test::Fail;

/// These words are refused, with a text that contains this and has no control characters within its lines.
fn shows(rt: &impl Abort, alloc: Global, words: &[&str], shown: &str) -> Result<(), AllocError> {
    let mut list = Vec::new(alloc);
    for word in words {
        list.push(word.to_string(alloc)?)?;
    }
    let Err(WordsFault::Refused(text)) = parse_words(alloc, list.as_slice()) else {
        assert!(rt; false, "for {shown}");
        return Ok(());
    };
    assert!(rt; text.as_str().contains(shown), "{text}");
    let controls = text
        .as_bytes()
        .iter()
        .any(|byte| byte.is_ascii_control() && *byte != b'\n');
    assert!(rt; !controls, "for {shown}");
    Ok(())
}

#[test]
fn control_characters_are_escaped(rt: HostRuntime) -> Result<(), Fail> {
    let alloc = rt.alloc();
    shows(&rt, alloc, &["cata\u{1b}[31mlog"], "'cata\\x1B[31mlog'")?;
    shows(
        &rt,
        alloc,
        &[
            "catalog",
            "a.dsk",
            "--order",
            "dos",
            "--fs",
            "d\u{7}os\u{7f}",
        ],
        "invalid value 'd\\x07os\\x7F' for '--fs <FS>'",
    )?;
    shows(
        &rt,
        alloc,
        &[
            "catalog", "a.dsk", "b\n.dsk", "--order", "dos", "--fs", "dos",
        ],
        "'b\\x0A.dsk'",
    )?;
    shows(
        &rt,
        alloc,
        &[
            "catalog", "a.dsk", "ä\t.dsk", "--order", "dos", "--fs", "dos",
        ],
        "'ä\\x09.dsk'",
    )?;
    Ok(())
}

/// A right-to-left override, an isolate and a zero width space.
#[test]
fn format_characters_are_escaped(rt: HostRuntime) -> Result<(), Fail> {
    let alloc = rt.alloc();
    shows(&rt, alloc, &["cata\u{202e}log"], "'cata\\u{00202E}log'")?;
    shows(&rt, alloc, &["cata\u{2066}log"], "'cata\\u{002066}log'")?;
    shows(&rt, alloc, &["cata\u{200b}log"], "'cata\\u{00200B}log'")?;
    Ok(())
}
