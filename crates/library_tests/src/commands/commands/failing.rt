// Readers and writers that fail.
use crate::commands::answer::{run_line, tells};
use crate::commands::broken::Broken;
use std::io::Read;
use std::test::Fail;
use test_volumes::hello;

const CONVERSION: &str = "convert a --order dos --to prodos --out b";

#[test]
fn a_reader_that_fails(rt: HostRuntime) -> Result<(), Fail> {
    let mut front = b"a few bytes".as_slice().chain(Broken);
    tells(&rt, rt.alloc(), "", &mut Broken, 4, "FAILED Input\n")?;
    tells(&rt, rt.alloc(), "", &mut front, 4, "FAILED Input\n")?;
    // All of an image was read, but not its end.
    let image = hello(rt.alloc())?;
    let mut whole = image.as_slice().chain(Broken);
    tells(&rt, rt.alloc(), "", &mut whole, 4, "FAILED Input\n")?;
    Ok(())
}

#[test]
fn a_writer_that_fails(rt: HostRuntime) -> Result<(), Fail> {
    let image = hello(rt.alloc())?;
    for line in ["", CONVERSION] {
        let mut out = Vec::new(rt.alloc());
        let status = run_line(
            rt.alloc(),
            line,
            &mut image.as_slice(),
            &[],
            &mut Broken,
            &mut out,
        )?;
        assert_eq!(rt; status, 4, "for {line}");
        assert!(rt; out.is_empty(), "for {line}");
    }
    Ok(())
}

#[test]
fn an_output_file_that_fails(rt: HostRuntime) -> Result<(), Fail> {
    let image = hello(rt.alloc())?;
    let mut text = Vec::new(rt.alloc());
    let status = run_line(
        rt.alloc(),
        CONVERSION,
        &mut image.as_slice(),
        &[],
        &mut text,
        &mut Broken,
    )?;
    assert_eq!(rt; status, 4);
    assert!(rt; text.as_slice() == b"OK\n".as_slice());
    Ok(())
}
