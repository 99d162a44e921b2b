// Commands on images: `run_command`. The program's tests have the others, with the same text.
use crate::commands::answer::{Answer, tells};
use std::alloc::{AllocError, Global};
use std::process::Abort;
use std::test::Fail;
use test_volumes::hello;

mod failing;

const LISTING: &str = "DISK VOLUME 254\n*B 002 HELLO\nFREE 494\n";

#[test]
fn a_listing_by_words_and_by_none(rt: HostRuntime) -> Result<(), Fail> {
    let image = hello(rt.alloc())?;
    for line in ["", "catalog - --fs dos --order dos"] {
        tells(&rt, rt.alloc(), line, &mut image.as_slice(), 0, LISTING)?;
    }
    Ok(())
}

/// A plan of HELLO in words: its list stands at 3/14 and its body at 3/15, each where the other belongs.
const MOVES: &str = "HELLO list 0 from 3/14 to 3/13\n\
    HELLO body 0 from 3/15 to 3/14\n\
    HELLO list 0 from 3/13 to 3/15\n\
    3 moves\n";

#[test]
fn a_plan_in_words(rt: HostRuntime) -> Result<(), Fail> {
    let image = hello(rt.alloc())?;
    let line = "plan - --fs dos --order dos --words";
    tells(&rt, rt.alloc(), line, &mut image.as_slice(), 0, MOVES)?;
    Ok(())
}

#[test]
fn a_job_in_place_wants_a_file_of_its_own(rt: HostRuntime) -> Result<(), Fail> {
    let image = hello(rt.alloc())?;
    for line in [
        "optimize a.dsk --fs dos --order dos --in-place",
        "lock a.dsk HELLO --fs dos --order dos --in-place",
        "save a.dsk NEW --fs dos --order dos --from b --type X --in-place",
        "mkdir a.po SUB --order prodos --date X --in-place",
    ] {
        let refused = "REFUSED InPlace\n";
        tells(&rt, rt.alloc(), line, &mut image.as_slice(), 3, refused)?;
    }
    Ok(())
}

#[test]
fn help_has_status_0(rt: HostRuntime) -> Result<(), Fail> {
    for line in ["--help", "help", "plan --help", "plan -h"] {
        let answer = Answer::to(rt.alloc(), line, &mut b"".as_slice(), &[])?;
        let helped = answer.status == 0 && !answer.text.is_empty() && answer.out.is_empty();
        assert!(rt; helped, "for {line}");
    }
    Ok(())
}

/// The words of a line are refused, with some text and no image.
fn refuses(rt: &impl Abort, alloc: Global, line: &str) -> Result<(), AllocError> {
    let image = hello(alloc)?;
    let answer = Answer::to(alloc, line, &mut image.as_slice(), &[])?;
    let refused = answer.status == 2 && !answer.text.is_empty() && answer.out.is_empty();
    assert!(rt; refused, "for {line}");
    Ok(())
}

#[test]
fn refused_words(rt: HostRuntime) -> Result<(), Fail> {
    for line in [
        "frobnicate",
        "catalog",
        "catalog a.dsk --fs dos",
        "catalog a.dsk --fs dos --order woz",
        "convert a.dsk --order dos --to nibble",
        "convert a.dsk --order dos --to nibble --out b.nib --volume 256",
        "convert a.dsk --order dos --to nibble --out b.nib --fs dos",
    ] {
        refuses(&rt, rt.alloc(), line)?;
    }
    Ok(())
}
