//! A file that is replaced as a whole, on a host in memory.

use memory_host::{Kind, MemoryHost};
use shop_host::{Host, Node};
use shop_outputs::{AsideFile, Place, Placing, Standing, Target, target_of};
use std::alloc::{AllocError, Global};
use std::fs::Permissions;
use std::io::{self, ErrorKind};
use std::os::unix::fs::PermissionsExt;
use std::test::Fail;

/// What of a mode is no kind.
const MODE_BITS: u32 = 0o7777;

/// A file and a link to it.
pub static FILE_AND_LINK: [(&str, Kind, &str); 2] = [
    ("image", Kind::File, "old"),
    ("link", Kind::Link, "image"),
];

/// Writes a text of five bytes to the file aside, and puts it onto the disk.
fn write_aside<H: Host>(host: &mut H, out: &mut AsideFile<'_, H>) -> io::Result<()> {
    out.put(host, b"newer")?;
    out.flush_to_disk(host)
}

/// Gives a file the place that a path leads to, if it may take it, and no file aside the path of another file.
pub fn place<H: Host>(
    host: &mut H,
    path: &str,
    apart: Option<&str>,
    placing: Placing,
) -> io::Result<()> {
    let target = target_of(host, path)?;
    let mut out = AsideFile::new(&target, apart, placing);
    match write_aside(host, &mut out) {
        Ok(()) => out.take_place(host),
        Err(error) => {
            out.discard(host);
            Err(error)
        }
    }
}

/// Why the file that a path leads to is not replaced.
fn error_of(host: &mut MemoryHost, path: &str) -> Option<ErrorKind> {
    match place(host, path, None, Placing::Over) {
        Ok(()) => None,
        Err(error) => Some(error.kind()),
    }
}

/// Why no new file takes the place that a path leads to.
fn new_error_of(host: &mut MemoryHost, path: &str) -> Option<ErrorKind> {
    match place(host, path, None, Placing::Free) {
        Ok(()) => None,
        Err(error) => Some(error.kind()),
    }
}

/// What stands in the folder with a file and a link to it, and after the file is replaced.
static OLD: [(&str, u32, &str); 2] = [("image", 0o644, "old"), ("link", 0o777, "image")];

static NEWER: [(&str, u32, &str); 2] = [("link", 0o777, "image"), ("image", 0o644, "newer")];

/// Why the file is not replaced that a path leads to in that folder, where the call after so many others fails, and
/// whether then this stands in the folder.
fn replaced(
    alloc: Global,
    failing: Option<u32>,
    path: &str,
    shown: &[(&str, u32, &str)],
) -> io::Result<(Option<ErrorKind>, bool)> {
    let mut host = MemoryHost::holding(alloc, &FILE_AND_LINK, failing)?;
    let error = error_of(&mut host, path);
    Ok((error, host.holds(shown)))
}

/// A file that stood there gives its access mode to the one that takes its place, and a link stays.
#[test]
fn the_file_that_a_path_leads_to(rt: HostRuntime) -> Result<(), Fail> {
    assert!(rt; replaced(rt.alloc(), None, "image", &NEWER)? == (None, true));
    assert!(rt; replaced(rt.alloc(), None, "link", &NEWER)? == (None, true));
    Ok(())
}

#[test]
fn a_file_that_is_new(rt: HostRuntime) -> Result<(), Fail> {
    let [image, link] = OLD;
    let shown = [image, link, ("other", 0o600, "newer")];
    assert!(rt; replaced(rt.alloc(), None, "other", &shown)? == (None, true));
    Ok(())
}

/// Which call asks whose the file aside is: where it fails, the owner is left as it is.
const OWNER_ASKED: u32 = 3;

/// Where a call fails, its error is the answer, or that no file can be written there, what stood there stands, and no
/// file aside does. The calls: asked twice where the path leads; made, asked whose it is, given its mode, written
/// twice, put onto the disk, renamed.
#[test]
fn each_call_failing(rt: HostRuntime) -> Result<(), Fail> {
    for failing in 0..9u32 {
        let answer = replaced(rt.alloc(), Some(failing), "image", &OLD)?;
        let error = if failing < 2 {
            ErrorKind::NotFound
        } else {
            ErrorKind::PermissionDenied
        };
        assert!(rt;
            failing == OWNER_ASKED || answer == (Some(error), true),
            "call {failing}"
        );
    }
    for failing in [OWNER_ASKED, 9] {
        let answer = replaced(rt.alloc(), Some(failing), "image", &NEWER)?;
        assert!(rt; answer == (None, true), "call {failing}");
    }
    Ok(())
}

/// The name of the first file aside is taken.
static FIRST_TAKEN: [(&str, Kind, &str); 2] = [
    ("image.0.new", Kind::File, "mine"),
    ("image", Kind::File, "old"),
];

#[test]
fn a_name_that_is_taken_is_left_alone(rt: HostRuntime) -> Result<(), Fail> {
    let mut host = MemoryHost::holding(rt.alloc(), &FIRST_TAKEN, None)?;
    assert!(rt; error_of(&mut host, "image").is_none());
    let shown = [("image.0.new", 0o644, "mine"), ("image", 0o644, "newer")];
    assert!(rt; host.holds(&shown));
    Ok(())
}

/// The folder where the names of so many files aside are taken.
fn taken(alloc: Global, names: u32) -> Result<MemoryHost, Fail> {
    let mut host = MemoryHost::holding(alloc, &FILE_AND_LINK, None)?;
    for number in 0..names {
        let name = format!(in alloc; "image.{number}.new")?;
        host.put(name.as_str(), Kind::File, b"mine")?;
    }
    Ok(host)
}

#[test]
fn a_hundred_names_that_are_taken(rt: HostRuntime) -> Result<(), Fail> {
    let mut host = taken(rt.alloc(), 100)?;
    assert!(rt; error_of(&mut host, "image") == Some(ErrorKind::AlreadyExists));
    assert!(rt; host.is_like(&taken(rt.alloc(), 100)?));
    Ok(())
}

/// The place of a file.
fn place_of_image(alloc: Global) -> Result<Target, AllocError> {
    Ok(Target::Place(Place {
        path: "/image".to_string(alloc)?,
        standing: None,
    }))
}

/// Whether a file aside is written and not empty. It does not take its place.
fn is_written(host: &mut MemoryHost, target: &Target) -> bool {
    let mut out = AsideFile::new(target, None, Placing::Over);
    write_aside(host, &mut out).is_ok() && !out.is_empty()
}

#[test]
fn what_stood_there_stands_until_the_end(rt: HostRuntime) -> Result<(), Fail> {
    let mut host = MemoryHost::holding(rt.alloc(), &FILE_AND_LINK, None)?;
    assert!(rt; is_written(&mut host, &place_of_image(rt.alloc())?));
    let [image, link] = OLD;
    assert!(rt; host.holds(&[image, link, ("image.0.new", 0o600, "newer")]));
    Ok(())
}

/// Whether a file aside to which nothing is written is empty to its end, and its end is good.
fn ends_empty(host: &mut MemoryHost, target: &Target) -> bool {
    let mut out = AsideFile::new(target, None, Placing::Over);
    out.flush_to_disk(host).is_ok() && out.is_empty() && out.take_place(host).is_ok()
}

#[test]
fn nothing_is_made_where_nothing_is_written(rt: HostRuntime) -> Result<(), Fail> {
    let mut host = MemoryHost::holding(rt.alloc(), &FILE_AND_LINK, None)?;
    assert!(rt; ends_empty(&mut host, &place_of_image(rt.alloc())?));
    assert!(rt; host.calls() == 0);
    Ok(())
}

/// Whether a file aside of which a write failed is not empty, cannot be put onto the disk, and does not take the place.
fn remembers_a_failure(host: &mut MemoryHost, target: &Target) -> bool {
    let mut out = AsideFile::new(target, None, Placing::Over);
    write_aside(host, &mut out).is_err()
        && !out.is_empty()
        && out.flush_to_disk(host).is_err()
        && out.take_place(host).is_err()
}

/// The calls: made, written twice.
#[test]
fn a_failed_write_is_not_forgotten(rt: HostRuntime) -> Result<(), Fail> {
    for failing in 0..3 {
        let mut host = MemoryHost::holding(rt.alloc(), &[], Some(failing))?;
        let target = place_of_image(rt.alloc())?;
        assert!(rt; remembers_a_failure(&mut host, &target), "call {failing}");
        assert!(rt; host.holds(&[]));
    }
    Ok(())
}

/// The place of a file that stands there with an access mode.
fn place_of_mode(alloc: Global, mode: u32) -> Result<Target, AllocError> {
    Ok(Target::Place(Place {
        path: "/image".to_string(alloc)?,
        standing: Some(Standing {
            node: Node {
                device: 0,
                number: 0,
            },
            mode: Permissions::from_mode(mode),
            owner: 0,
            group: 0,
        }),
    }))
}

/// Whether no file aside is made for a target, neither at first nor by the first bytes, and none takes its place.
fn is_refused(host: &mut MemoryHost, target: &Target) -> bool {
    let mut out = AsideFile::new(target, None, Placing::Over);
    out.open(host).is_err()
        && out.failure() == Some(ErrorKind::PermissionDenied)
        && write_aside(host, &mut out).is_err()
        && !out.is_empty()
        && out.take_place(host).is_err()
}

/// A file that no one may write stays, and nothing is asked of the file system.
#[test]
fn a_file_that_is_write_protected_stays(rt: HostRuntime) -> Result<(), Fail> {
    for mode in [0o444, 0o400, 0o555, 0o000] {
        let mut host = MemoryHost::holding(rt.alloc(), &FILE_AND_LINK, None)?;
        let target = place_of_mode(rt.alloc(), mode)?;
        assert!(rt; is_refused(&mut host, &target), "{mode:o}");
        assert!(rt; host.holds(&OLD) && host.calls() == 0);
    }
    Ok(())
}

/// A bit for one of those who may write it is enough.
#[test]
fn a_file_that_someone_may_write_is_replaced(rt: HostRuntime) -> Result<(), Fail> {
    for mode in [0o200, 0o020, 0o002, 0o666] {
        let mut host = MemoryHost::holding(rt.alloc(), &FILE_AND_LINK, None)?;
        assert!(rt;
            is_written(&mut host, &place_of_mode(rt.alloc(), mode)?),
            "{mode:o}"
        );
    }
    Ok(())
}

/// Something of each kind.
static EACH_KIND: [(&str, Kind, &str); 4] = [
    ("image", Kind::File, "old"),
    ("link", Kind::Link, "image"),
    ("lost", Kind::Link, "nowhere"),
    ("inner", Kind::Folder, ""),
];

/// Where a path leads: of a place its name and its access mode.
#[derive(Clone, Copy, PartialEq, Eq)]
enum Lead<'a> {
    Straight,
    StandardOutput,
    Nowhere,
    Place(&'a str, Option<u32>),
    Fails(ErrorKind),
}

/// The access mode of a file that stands there.
fn bits_of(standing: &Option<Standing>) -> Option<u32> {
    match standing {
        Some(standing) => Some(standing.mode.mode() & MODE_BITS),
        None => None,
    }
}

/// Whether a path leads there.
fn leads(host: &mut MemoryHost, path: &str, lead: Lead) -> bool {
    match &target_of(host, path) {
        Ok(Target::Straight) => lead == Lead::Straight,
        Ok(Target::StandardOutput) => lead == Lead::StandardOutput,
        Ok(Target::Nowhere) => lead == Lead::Nowhere,
        Ok(Target::Place(place)) => {
            lead == Lead::Place(place.path.as_str(), bits_of(&place.standing))
        }
        Err(error) => lead == Lead::Fails(error.kind()),
    }
}

/// Whether a path leads there in the folder with something of each kind, where the call after so many others fails.
fn leads_after(alloc: Global, calls: u32, path: &str, lead: Lead) -> io::Result<bool> {
    let mut host = MemoryHost::holding(alloc, &EACH_KIND, Some(calls))?;
    Ok(leads(&mut host, path, lead))
}

/// Whether a path leads there where so many calls tell it; where one of them fails, no file can be written there.
fn leads_by_calls(alloc: Global, calls: u32, path: &str, lead: Lead) -> io::Result<bool> {
    for failing in 0..calls {
        if !leads_after(alloc, failing, path, Lead::Nowhere)? {
            return Ok(false);
        }
    }
    leads_after(alloc, calls, path, lead)
}

#[test]
fn where_a_path_leads(rt: HostRuntime) -> Result<(), Fail> {
    let image = Lead::Place("/image", Some(0o644));
    assert!(rt; leads_by_calls(rt.alloc(), 2, "image", image)?);
    assert!(rt; leads_by_calls(rt.alloc(), 2, "link", image)?);
    assert!(rt; leads_by_calls(rt.alloc(), 1, "inner", Lead::Nowhere)?);
    // A link that leads to nothing: the new file is to stand where it leads.
    assert!(rt; leads_by_calls(rt.alloc(), 5, "lost", Lead::Place("/nowhere", None))?);
    assert!(rt; leads_by_calls(rt.alloc(), 3, "other", Lead::Place("/other", None))?);
    Ok(())
}

/// A path that can't be that of a file: it has no name, or that of a folder.
#[test]
fn a_path_that_can_not_be(rt: HostRuntime) -> Result<(), Fail> {
    for path in ["", "other/", "./", "other/..", "other/."] {
        let mut host = MemoryHost::holding(rt.alloc(), &EACH_KIND, None)?;
        assert!(rt; leads(&mut host, path, Lead::Nowhere), "{path}");
    }
    Ok(())
}

/// A folder that knows no second names of files: a new file takes a place at which nothing stands, and no other.
#[test]
fn a_new_file_takes_a_free_place_alone(rt: HostRuntime) -> Result<(), Fail> {
    let mut host = MemoryHost::holding(rt.alloc(), &FILE_AND_LINK, None)?;
    assert!(rt; new_error_of(&mut host, "image") == Some(ErrorKind::AlreadyExists));
    assert!(rt; new_error_of(&mut host, "link") == Some(ErrorKind::AlreadyExists));
    assert!(rt; host.holds(&OLD));
    assert!(rt; new_error_of(&mut host, "other").is_none());
    let [image, link] = OLD;
    assert!(rt; host.holds(&[image, link, ("other", 0o600, "newer")]));
    Ok(())
}

/// Why no new file takes the place, where the call after so many others fails, and whether what stood there stands then
/// and nothing else does.
fn new_failing(alloc: Global, failing: u32) -> io::Result<(Option<ErrorKind>, bool)> {
    let mut host = MemoryHost::holding(alloc, &FILE_AND_LINK, Some(failing))?;
    let error = new_error_of(&mut host, "other");
    Ok((error, host.holds(&OLD)))
}

/// Which call asks which file was made at the place, so that no other one is taken back: where it fails, the new file
/// takes the place all the same.
const MADE_ASKED: u32 = 8;

/// The calls: asked three times where the path leads; made, written twice, put onto the disk; its place made, asked
/// which file that is, and taken.
#[test]
fn each_call_of_a_new_file_failing(rt: HostRuntime) -> Result<(), Fail> {
    for failing in 0..10u32 {
        let (error, is_old) = new_failing(rt.alloc(), failing)?;
        assert!(rt;
            failing == MADE_ASKED || error.is_some() && is_old,
            "call {failing}"
        );
    }
    for failing in [MADE_ASKED, 10] {
        let mut host = MemoryHost::holding(rt.alloc(), &FILE_AND_LINK, Some(failing))?;
        assert!(rt;
            new_error_of(&mut host, "other").is_none(),
            "call {failing}"
        );
        let [image, link] = OLD;
        assert!(rt;
            host.holds(&[image, link, ("other", 0o600, "newer")]),
            "call {failing}"
        );
    }
    Ok(())
}
