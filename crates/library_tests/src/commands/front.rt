// What lists of words ask for, what they leave to the images, and the job with what these have.
use crate::commands::answer::words_of;
use a2_device::Order;
use shop_help::{WordsFault, misfit_fault, parse_words, read_fault};
use shop_jobs::{Beside, FileSystem, ImageReading, Job, OrderSaid, VolumeReading, Ways};
use shop_words::{asks_explain, read_words};
use std::alloc::Global;
use std::process::Abort;
use std::test::Fail;

/// Ways in which no image is read by default.
const FOUND: Ways = Ways {
    file_system: FileSystem::Prodos,
    order: Order::Nibble,
    other_order: Order::Prodos,
};

/// The job of a line.
fn job_of(alloc: Global, line: &str) -> Result<Job, WordsFault> {
    let words = words_of(alloc, line)?;
    match read_words(alloc, words.as_slice()) {
        Ok(asked) => match asked.job(alloc) {
            Ok(job) => Ok(job),
            Err(misfit) => Err(misfit_fault(alloc, &asked, misfit)),
        },
        Err(unread) => Err(read_fault(alloc, words.as_slice(), &unread)),
    }
}

/// A volume that is no data disk, and has no places reserved.
fn volume(file_system: Option<FileSystem>, order: OrderSaid) -> ImageReading {
    ImageReading::Volume(VolumeReading {
        file_system,
        order,
        data_disk: false,
        reserve: None,
    })
}

/// The words of a line say so of the image.
fn says(
    rt: &impl Abort,
    alloc: Global,
    line: &str,
    reading: ImageReading,
) -> Result<(), WordsFault> {
    let job = job_of(alloc, line)?;
    assert!(rt; job.input.reading == reading, "for {line}");
    Ok(())
}

/// The words of a line say so of the orders of two images.
fn says_of_both(
    rt: &impl Abort,
    alloc: Global,
    line: &str,
    order: OrderSaid,
    other: OrderSaid,
) -> Result<(), WordsFault> {
    let job = job_of(alloc, line)?;
    assert!(rt; job.input.reading.order() == Some(order), "for {line}");
    match &job.input.beside {
        Beside::Image { order, .. } => assert!(rt; *order == other, "for {line}"),
        _ => assert!(rt; false, "for {line}"),
    }
    Ok(())
}

#[test]
fn what_is_left_out_is_found(rt: HostRuntime) -> Result<(), Fail> {
    for line in [
        "catalog a --auto",
        "--auto catalog a",
        "--auto catalog a --auto --auto",
        "list a",
        "map a",
        "reclaim a --out b",
        "reclaim a --in-place --auto",
        "read a NAME --fs auto --order auto",
        "read a NAME --fs=auto --order=auto",
    ] {
        let found = volume(None, OrderSaid::ByReading);
        says(&rt, rt.alloc(), line, found)?;
    }
    for line in [
        "catalog a --fs dos --order dos",
        "catalog a --fs dos --order dos --auto",
        "reclaim a --in-place --fs dos --order dos",
    ] {
        let said = volume(Some(FileSystem::Dos), OrderSaid::Is(Order::Dos));
        says(&rt, rt.alloc(), line, said)?;
    }
    for line in ["identify a --auto", "survey a", "create --fs dos --out b"] {
        says(&rt, rt.alloc(), line, ImageReading::Bytes)?;
    }
    Ok(())
}

#[test]
fn one_of_both_may_be_said(rt: HostRuntime) -> Result<(), Fail> {
    let dos = Some(FileSystem::Dos);
    let reading = volume(dos, OrderSaid::ByReading);
    says(&rt, rt.alloc(), "check a --fs dos --auto", reading)?;
    let reading = volume(None, OrderSaid::Is(Order::Nibble));
    says(&rt, rt.alloc(), "check a --order nibble --fs auto", reading)?;
    let reading = volume(dos, OrderSaid::ByContainer);
    says(&rt, rt.alloc(), "check a --fs dos --order 2img", reading)?;
    Ok(())
}

#[test]
fn the_other_image_follows_the_one(rt: HostRuntime) -> Result<(), Fail> {
    let dos = OrderSaid::Is(Order::Dos);
    for (line, order, other) in [
        ("compare a b", OrderSaid::ByReading, OrderSaid::ByReading),
        (
            "compare a b --order 2img",
            OrderSaid::ByContainer,
            OrderSaid::ByContainer,
        ),
        ("compare a b --order dos", dos, dos),
        (
            "compare a b --order dos --other-order auto",
            dos,
            OrderSaid::ByReading,
        ),
    ] {
        says_of_both(&rt, rt.alloc(), line, order, other)?;
    }
    Ok(())
}

#[test]
fn a_directory_is_of_prodos(rt: HostRuntime) -> Result<(), Fail> {
    for line in ["add a --from b --out c --into SUB", "mkdir a SUB --out c"] {
        let prodos = volume(Some(FileSystem::Prodos), OrderSaid::ByReading);
        says(&rt, rt.alloc(), line, prodos)?;
    }
    let line = "convert a --to dos --out c --auto";
    let sectors = ImageReading::Sectors(OrderSaid::ByReading);
    says(&rt, rt.alloc(), line, sectors)?;
    Ok(())
}

/// What is left to the image by the words of a line is settled so by ways that are found.
fn settles(
    rt: &impl Abort,
    alloc: Global,
    line: &str,
    reading: ImageReading,
) -> Result<(), WordsFault> {
    let mut job = job_of(alloc, line)?;
    assert!(rt; !job.input.is_settled(), "for {line}");
    job.input.settle(FOUND);
    assert!(rt; job.input.is_settled(), "for {line}");
    assert!(rt; job.input.reading == reading, "for {line}");
    Ok(())
}

#[test]
fn the_job_has_what_the_image_has(rt: HostRuntime) -> Result<(), Fail> {
    let nibble = OrderSaid::Is(Order::Nibble);
    let prodos = volume(Some(FileSystem::Prodos), nibble);
    settles(&rt, rt.alloc(), "catalog a --auto", prodos)?;
    let dos = volume(Some(FileSystem::Dos), nibble);
    settles(&rt, rt.alloc(), "catalog a --fs dos --auto", dos)?;
    let sectors = ImageReading::Sectors(nibble);
    settles(&rt, rt.alloc(), "wrap a --out b", sectors)?;
    Ok(())
}

#[test]
fn the_other_image_has_an_order_of_its_own(rt: HostRuntime) -> Result<(), Fail> {
    let mut job = job_of(rt.alloc(), "compare a b")?;
    job.input.settle(FOUND);
    assert!(rt;
        matches!(
            &job.input.beside,
            Beside::Image {
                order: OrderSaid::Is(Order::Prodos),
                ..
            }
        )
    );
    Ok(())
}

#[test]
fn words_of_a_job_leave_nothing_open(rt: HostRuntime) -> Result<(), Fail> {
    let words = words_of(rt.alloc(), "catalog a --auto")?;
    assert!(rt;
        matches!(
            parse_words(rt.alloc(), words.as_slice()),
            Err(WordsFault::Refused(_))
        )
    );
    Ok(())
}

fn is_explained(alloc: Global, line: &str) -> Result<bool, WordsFault> {
    let words = words_of(alloc, line)?;
    match read_words(alloc, words.as_slice()) {
        Ok(asked) => Ok(asked.is_explained()),
        Err(unread) => Err(read_fault(alloc, words.as_slice(), &unread)),
    }
}

#[test]
fn an_explanation_is_asked_for_anywhere(rt: HostRuntime) -> Result<(), Fail> {
    for line in [
        "--explain catalog a --auto",
        "catalog --explain a --auto --explain",
    ] {
        assert!(rt; is_explained(rt.alloc(), line)?, "for {line}");
    }
    assert!(rt; !is_explained(rt.alloc(), "catalog a --auto")?);
    assert!(rt; !is_explained(rt.alloc(), "read a --auto -- --explain")?);
    assert!(rt; asks_explain(words_of(rt.alloc(), "none --explain")?.as_slice()));
    assert!(rt; !asks_explain(words_of(rt.alloc(), "none --help")?.as_slice()));
    Ok(())
}
