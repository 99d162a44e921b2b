// What a survey tells of files: `image_survey`.
use crate::commands::broken::Broken;
use a2_device::Order;
use a2_image::Image;
use disk_container::wrap;
use image_survey::{FileId, Survey, SurveyError, Surveyed, survey_image};
use shop_jobs::SurveyForm;
use std::alloc::Global;
use std::test::Fail;
use test_volumes::{dos_volume, hello};

/// The lines of a disk with one file, and of a container around it.
const SAME_LINES: &str = "BEST dos dos 254 files 1 lost 0 free 494 \
    image 0079c565a9f5d3fedca9c8613a283138840d96182a859c0af5c0f1ad258efbce \
    content d23a767d7e693c140876af8e3ed068ba6fcf26a71e4508e5f8e17dd2341e228c a\n\
    BEST dos dos 254 files 1 lost 0 free 494 \
    image 989142d2cff8db4b72570abc16837edbab8ef53798966ea6bf93ef8e6d63aad5 \
    content d23a767d7e693c140876af8e3ed068ba6fcf26a71e4508e5f8e17dd2341e228c b\n\
    SAME 1 a\nSAME 1 b\nTWIN 1 a\nTWIN 1 b\n\
    SURVEYED files 2 best 2 ambiguous 0 none 0 other 0 unread 0 same 2 twin 2 passed 7\n";

/// The same in JSON.
const SAME_ROWS: &str =
    "{\"content\":\"d23a767d7e693c140876af8e3ed068ba6fcf26a71e4508e5f8e17dd2341e228c\",\
    \"disk\":\"0079c565a9f5d3fedca9c8613a283138840d96182a859c0af5c0f1ad258efbce\",\
    \"files\":1,\"free\":494,\"fs\":\"dos\",\
    \"image\":\"0079c565a9f5d3fedca9c8613a283138840d96182a859c0af5c0f1ad258efbce\",\
    \"lost\":0,\"order\":\"dos\",\"path\":\"a\",\"shell\":null,\"verdict\":\"BEST\",\"volume\":\"254\"}\n\
    {\"content\":\"d23a767d7e693c140876af8e3ed068ba6fcf26a71e4508e5f8e17dd2341e228c\",\
    \"disk\":\"0079c565a9f5d3fedca9c8613a283138840d96182a859c0af5c0f1ad258efbce\",\
    \"files\":1,\"free\":494,\"fs\":\"dos\",\
    \"image\":\"989142d2cff8db4b72570abc16837edbab8ef53798966ea6bf93ef8e6d63aad5\",\
    \"lost\":0,\"order\":\"dos\",\"path\":\"b\",\"shell\":\"2img\",\"verdict\":\"BEST\",\"volume\":\"254\"}\n\
    {\"path\":\"a\",\"same\":1}\n{\"path\":\"b\",\"same\":1}\n\
    {\"path\":\"a\",\"twin\":1}\n{\"path\":\"b\",\"twin\":1}\n\
    {\"ambiguous\":0,\"best\":2,\"files\":2,\"none\":0,\"other\":0,\
    \"passed\":7,\"same\":2,\"twin\":2,\"unread\":0}\n";

/// A container around a disk with one file, whose header says this order.
fn in_container(alloc: Global, order: Order) -> Result<Vec<u8>, Fail> {
    let image = hello(alloc)?;
    let volume = match order {
        Order::Dos => Some(254),
        _ => None,
    };
    Ok(wrap(alloc, order, volume, b"Side A", true, &image)?)
}

/// What is told of one file, and the status behind it.
fn told_of(alloc: Global, path: &str, found: &Surveyed) -> Result<(Vec<u8>, u8), Fail> {
    let mut text = Vec::new(alloc);
    let mut survey = Survey::new(alloc, SurveyForm::Lines);
    if survey.add(alloc, path, None, found, &mut text).is_err() {
        return Err("not told".into());
    }
    let status = survey.end(alloc, 0, &mut Vec::new(alloc));
    Ok((text, status))
}

/// A survey on its way, and its text.
#[derive(Drop)]
struct Surveying {
    survey: Survey,
    text: Vec<u8>,
}

/// A survey of no files yet.
fn no_files(alloc: Global) -> Surveying {
    Surveying {
        survey: Survey::new(alloc, SurveyForm::Lines),
        text: Vec::new(alloc),
    }
}

impl Surveying {
    /// Surveys the file of a number, to which a path leads.
    fn add(&mut self, alloc: Global, path: &str, number: u64, bytes: Vec<u8>) -> Result<(), Fail> {
        let file = Some(FileId { device: 1, number });
        let found = survey_image(alloc, bytes)?;
        match self.survey.add(alloc, path, file, &found, &mut self.text) {
            Ok(()) => Ok(()),
            Err(_) => Err("not told".into()),
        }
    }

    /// What is told at the end, where all have a best reading.
    fn end(self, alloc: Global) -> Result<Vec<u8>, Fail> {
        let Surveying { survey, .. } = self;
        let mut text = Vec::new(alloc);
        match survey.end(alloc, 0, &mut text) {
            0 => Ok(text),
            _ => Err("not all best".into()),
        }
    }
}

/// A disk with one file, in another order.
fn in_order(alloc: Global, order: Order) -> Result<Vec<u8>, Fail> {
    match Image::open(hello(alloc)?, Order::Dos) {
        Ok(image) => Ok(image.convert(order, 1)?.into_bytes()),
        Err(_) => Err("not opened".into()),
    }
}

/// A disk with one file, in nibble order, and no sector on its first track.
fn torn(alloc: Global) -> Result<Vec<u8>, Fail> {
    let mut bytes = in_order(alloc, Order::Nibble)?;
    for at in 0..6_656 {
        if let Some(byte) = bytes.get_mut(at) {
            *byte = 0xff;
        }
    }
    Ok(bytes)
}

#[test]
fn a_disk_and_its_container_are_the_same(rt: HostRuntime) -> Result<(), Fail> {
    for (form, wanted) in [
        (SurveyForm::Lines, SAME_LINES),
        (SurveyForm::Json, SAME_ROWS),
    ] {
        let mut text = Vec::new(rt.alloc());
        let mut survey = Survey::new(rt.alloc(), form);
        let disk = survey_image(rt.alloc(), hello(rt.alloc())?)?;
        let container = survey_image(rt.alloc(), in_container(rt.alloc(), Order::Dos)?)?;
        assert!(rt; survey.add(rt.alloc(), "a", None, &disk, &mut text).is_ok());
        assert!(rt;
            survey
                .add(rt.alloc(), "b", None, &container, &mut text)
                .is_ok()
        );
        assert_eq!(rt; survey.end(rt.alloc(), 7, &mut text), 0);
        assert!(rt; text.as_slice() == wanted.as_bytes(), "for {wanted}");
    }
    Ok(())
}

#[test]
fn a_container_that_says_another_order_is_ambiguous(rt: HostRuntime) -> Result<(), Fail> {
    let file = in_container(rt.alloc(), Order::Prodos)?;
    let (text, status) = told_of(rt.alloc(), "c", &survey_image(rt.alloc(), file)?)?;
    let wanted =
        "AMBIGUOUS image f9279ff8117bb31380f877ac5fa05fb6cb74ec060ab851ec320f8dc60e4792c4 c\n";
    assert!(rt; text.as_slice() == wanted.as_bytes() && status == 1);
    Ok(())
}

#[test]
fn a_container_that_is_cut_is_no_image(rt: HostRuntime) -> Result<(), Fail> {
    let mut file = in_container(rt.alloc(), Order::Dos)?;
    file.truncate(143_400);
    let (text, status) = told_of(rt.alloc(), "c", &survey_image(rt.alloc(), file)?)?;
    assert!(rt; text.as_slice() == b"OTHER c\n".as_slice() && status == 0);
    Ok(())
}

#[test]
fn a_disk_of_zeroes_has_no_volume(rt: HostRuntime) -> Result<(), Fail> {
    let found = survey_image(rt.alloc(), vec![in rt.alloc(); 0; 143_360]?)?;
    let (text, status) = told_of(rt.alloc(), "P", &found)?;
    let wanted = "NONE image 805f89516ae3725e591d02cc0594f250fbc9ab74461f1e03faeed1649f24e9a2 P\n";
    assert!(rt; text.as_slice() == wanted.as_bytes() && status == 1);
    Ok(())
}

#[test]
fn other_files_and_unread_ones_are_told(rt: HostRuntime) -> Result<(), Fail> {
    let found = survey_image(rt.alloc(), vec![in rt.alloc(); 0; 8_193]?)?;
    let (text, status) = told_of(rt.alloc(), "a\x1bb", &found)?;
    assert!(rt; text.as_slice() == b"OTHER a\\x1Bb\n".as_slice() && status == 0);
    let (text, status) = told_of(rt.alloc(), "P", &Surveyed::Unread)?;
    assert!(rt; text.as_slice() == b"UNREAD P\n".as_slice() && status == 1);
    Ok(())
}

#[test]
fn a_path_in_json_is_escaped(rt: HostRuntime) -> Result<(), Fail> {
    let mut text = Vec::new(rt.alloc());
    let mut survey = Survey::new(rt.alloc(), SurveyForm::Json);
    assert!(rt;
        survey
            .add(rt.alloc(), "a\x1b\"", None, &Surveyed::Other, &mut text)
            .is_ok()
    );
    let wanted =
        "{\"content\":null,\"disk\":null,\"files\":null,\"free\":null,\"fs\":null,\"image\":null,\"lost\":null,\
        \"order\":null,\"path\":\"a\\u001b\\\"\",\"shell\":null,\"verdict\":\"OTHER\",\"volume\":null}\n";
    assert!(rt; text.as_slice() == wanted.as_bytes());
    Ok(())
}

#[test]
fn disks_without_files_are_not_the_same_and_may_be_twins(rt: HostRuntime) -> Result<(), Fail> {
    let mut survey = no_files(rt.alloc());
    survey.add(rt.alloc(), "a", 1, dos_volume(rt.alloc(), [0xff, 0xff])?)?;
    survey.add(rt.alloc(), "b", 2, dos_volume(rt.alloc(), [0xff, 0xff])?)?;
    let wanted = "TWIN 1 a\nTWIN 1 b\n\
        SURVEYED files 2 best 2 ambiguous 0 none 0 other 0 unread 0 same 0 twin 2 passed 0\n";
    assert!(rt; survey.end(rt.alloc())?.as_slice() == wanted.as_bytes());
    Ok(())
}

#[test]
fn paths_to_one_file_are_one_file(rt: HostRuntime) -> Result<(), Fail> {
    let mut survey = no_files(rt.alloc());
    survey.add(rt.alloc(), "a", 1, hello(rt.alloc())?)?;
    survey.add(rt.alloc(), "./a", 1, hello(rt.alloc())?)?;
    let wanted =
        "SURVEYED files 2 best 2 ambiguous 0 none 0 other 0 unread 0 same 0 twin 0 passed 0\n";
    assert!(rt; survey.end(rt.alloc())?.as_slice() == wanted.as_bytes());
    Ok(())
}

#[test]
fn a_copy_of_a_file_is_the_same_as_its_first_path(rt: HostRuntime) -> Result<(), Fail> {
    let mut survey = no_files(rt.alloc());
    survey.add(rt.alloc(), "a", 1, hello(rt.alloc())?)?;
    survey.add(rt.alloc(), "./a", 1, hello(rt.alloc())?)?;
    survey.add(rt.alloc(), "b", 2, hello(rt.alloc())?)?;
    let wanted = "SAME 1 a\nSAME 1 b\nTWIN 1 a\nTWIN 1 b\n\
        SURVEYED files 3 best 3 ambiguous 0 none 0 other 0 unread 0 same 2 twin 2 passed 0\n";
    assert!(rt; survey.end(rt.alloc())?.as_slice() == wanted.as_bytes());
    Ok(())
}

#[test]
fn a_disk_in_other_orders_is_a_twin(rt: HostRuntime) -> Result<(), Fail> {
    let mut survey = no_files(rt.alloc());
    survey.add(rt.alloc(), "a", 1, hello(rt.alloc())?)?;
    survey.add(rt.alloc(), "b", 2, in_order(rt.alloc(), Order::Prodos)?)?;
    survey.add(rt.alloc(), "c", 3, in_order(rt.alloc(), Order::Nibble)?)?;
    let wanted = "SAME 1 a\nSAME 1 b\nSAME 1 c\nTWIN 1 a\nTWIN 1 b\nTWIN 1 c\n\
        SURVEYED files 3 best 3 ambiguous 0 none 0 other 0 unread 0 same 3 twin 3 passed 0\n";
    assert!(rt; survey.end(rt.alloc())?.as_slice() == wanted.as_bytes());
    Ok(())
}

#[test]
fn a_disk_with_other_boot_tracks_is_no_twin(rt: HostRuntime) -> Result<(), Fail> {
    let mut other = hello(rt.alloc())?;
    if let Some(byte) = other.get_mut(256) {
        *byte = 1;
    }
    let mut survey = no_files(rt.alloc());
    survey.add(rt.alloc(), "a", 1, hello(rt.alloc())?)?;
    survey.add(rt.alloc(), "b", 2, other)?;
    let wanted = "SAME 1 a\nSAME 1 b\n\
        SURVEYED files 2 best 2 ambiguous 0 none 0 other 0 unread 0 same 2 twin 0 passed 0\n";
    assert!(rt; survey.end(rt.alloc())?.as_slice() == wanted.as_bytes());
    Ok(())
}

#[test]
fn disks_that_lack_a_sector_are_no_twins(rt: HostRuntime) -> Result<(), Fail> {
    let mut survey = no_files(rt.alloc());
    survey.add(rt.alloc(), "a", 1, torn(rt.alloc())?)?;
    survey.add(rt.alloc(), "b", 2, torn(rt.alloc())?)?;
    let wanted = "SAME 1 a\nSAME 1 b\n\
        SURVEYED files 2 best 2 ambiguous 0 none 0 other 0 unread 0 same 2 twin 0 passed 0\n";
    assert!(rt; survey.end(rt.alloc())?.as_slice() == wanted.as_bytes());
    Ok(())
}

#[test]
fn a_writer_that_fails(rt: HostRuntime) -> Result<(), Fail> {
    let found = survey_image(rt.alloc(), hello(rt.alloc())?)?;
    let mut survey = Survey::new(rt.alloc(), SurveyForm::Lines);
    let told = survey.add(rt.alloc(), "a", None, &found, &mut Broken);
    assert!(rt; matches!(&told, Err(SurveyError::Output)));
    assert_eq!(rt; survey.end(rt.alloc(), 0, &mut Broken), 4);
    Ok(())
}
