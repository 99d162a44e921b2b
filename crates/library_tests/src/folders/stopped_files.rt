//! A file that takes its place on a host in memory that stops: each call fails after so many others.

use crate::folders::whole_files::{FILE_AND_LINK, place};
use memory_host::{Kind, MemoryHost};
use shop_host::Host;
use shop_outputs::Placing;
use std::io::{self, ErrorKind};
use std::test::Fail;

/// What stands at the place, and at the name aside with its access mode.
type Moment<'a> = (Option<&'a str>, Option<(u32, &'a str)>);

/// A file that is to take a place, and what stands beside it all the time.
#[derive(Clone, Copy)]
struct Placed<'a> {
    path: &'a str,
    aside: &'a str,
    apart: Option<&'a str>,
    placing: Placing,
    mode: u32,
    knows_links: bool,
    kept: &'a [(&'a str, u32, &'a str)],
}

/// What stands in the folder with a file and a link to it.
static FILE: (&str, u32, &str) = ("image", 0o644, "old");

static LINK: (&str, u32, &str) = ("link", 0o777, "image");

/// What stands after each number of calls where a file is replaced. The calls: asked twice where the path leads; made,
/// asked whose it is, given its mode, written twice, put onto the disk, renamed.
static REPLACED: [Moment<'static>; 10] = [
    (Some("old"), None),
    (Some("old"), None),
    (Some("old"), None),
    (Some("old"), Some((0o600, ""))),
    (Some("old"), Some((0o600, ""))),
    (Some("old"), Some((0o644, ""))),
    (Some("old"), Some((0o644, "new"))),
    (Some("old"), Some((0o644, "newer"))),
    (Some("old"), Some((0o644, "newer"))),
    (Some("newer"), None),
];

/// The same where a new file gets a second name. The calls: asked three times where the path leads; made, written
/// twice, put onto the disk; linked, and its first name removed.
static LINKED: [Moment<'static>; 10] = [
    (None, None),
    (None, None),
    (None, None),
    (None, None),
    (None, Some((0o600, ""))),
    (None, Some((0o600, "new"))),
    (None, Some((0o600, "newer"))),
    (None, Some((0o600, "newer"))),
    (Some("newer"), Some((0o600, "newer"))),
    (Some("newer"), None),
];

/// The same where files have no second names. The last calls: its place made, asked which file that is, and taken.
static MADE: [Moment<'static>; 11] = [
    (None, None),
    (None, None),
    (None, None),
    (None, None),
    (None, Some((0o600, ""))),
    (None, Some((0o600, "new"))),
    (None, Some((0o600, "newer"))),
    (None, Some((0o600, "newer"))),
    (Some(""), Some((0o600, "newer"))),
    (Some(""), Some((0o600, "newer"))),
    (Some("newer"), None),
];

impl Placed<'_> {
    /// The folder with a file and a link to it.
    fn host(&self, rt: &HostRuntime, failing: Option<u32>) -> io::Result<MemoryHost> {
        let mut host = MemoryHost::holding(rt.alloc(), &FILE_AND_LINK, failing)?;
        if self.knows_links {
            host.know_links();
        }
        Ok(host)
    }

    /// Whether the file took its place.
    fn takes_place(&self, host: &mut MemoryHost) -> bool {
        place(host, self.path, self.apart, self.placing).is_ok()
    }

    /// Whether this stands there, and nothing else but what stands beside it.
    fn is_at(&self, host: &MemoryHost, (text, aside): Moment<'_>) -> io::Result<bool> {
        let mut rows = Vec::from_slice(host.alloc(), self.kept)?;
        if let Some(text) = text {
            rows.push((self.path, self.mode, text))?;
        }
        if let Some((mode, text)) = aside {
            rows.push((self.aside, mode, text))?;
        }
        Ok(host.holds(rows.as_slice()))
    }

    /// Whether this stands there where the system stops after so many calls, and the file is told as one that took its
    /// place only where all of it stands there.
    fn stops_at(&self, rt: &HostRuntime, calls: u32, moment: Moment<'_>) -> io::Result<bool> {
        let mut host = self.host(rt, None)?;
        host.stop_after(calls);
        let is_taken = self.takes_place(&mut host);
        Ok(is_taken == (moment.0 == Some("newer")) && self.is_at(&host, moment)?)
    }

    /// Whether these stand there, where the system stops after each number of calls, to the last.
    fn stops_at_each(&self, rt: &HostRuntime, moments: &[Moment<'_>]) -> io::Result<bool> {
        for (calls, moment) in moments.iter().enumerate() {
            if !self.stops_at(rt, calls as u32, *moment)? {
                return Ok(false);
            }
        }
        let mut host = self.host(rt, None)?;
        Ok(self.takes_place(&mut host) && host.calls() as usize + 1 == moments.len())
    }
}

/// A file that is replaced.
fn over<'a>(kept: &'a [(&'a str, u32, &'a str)]) -> Placed<'a> {
    Placed {
        path: "image",
        aside: "image.0.new",
        apart: None,
        placing: Placing::Over,
        mode: 0o644,
        knows_links: false,
        kept,
    }
}

/// A new file.
fn free<'a>(knows_links: bool, kept: &'a [(&'a str, u32, &'a str)]) -> Placed<'a> {
    Placed {
        path: "other",
        aside: "other.0.new",
        apart: None,
        placing: Placing::Free,
        mode: 0o600,
        knows_links,
        kept,
    }
}

/// The old file stands there, or all of the new one.
#[test]
fn a_file_is_replaced_as_a_whole(rt: HostRuntime) -> Result<(), Fail> {
    let kept = [LINK];
    assert!(rt; over(&kept).stops_at_each(&rt, &REPLACED)?);
    Ok(())
}

/// Nothing stands there, or all of the new file; where files have no second names, an empty one may.
#[test]
fn a_new_file_is_there_as_a_whole(rt: HostRuntime) -> Result<(), Fail> {
    let kept = [FILE, LINK];
    assert!(rt; free(true, &kept).stops_at_each(&rt, &LINKED)?);
    assert!(rt; free(false, &kept).stops_at_each(&rt, &MADE)?);
    Ok(())
}

/// The path of another file of the job is no name aside, though nothing stands there.
#[test]
fn a_path_of_another_file_is_no_name_aside(rt: HostRuntime) -> Result<(), Fail> {
    let kept = [LINK];
    let replaced = Placed {
        aside: "image.1.new",
        apart: Some("/image.0.new"),
        ..over(&kept)
    };
    assert!(rt; replaced.stops_at_each(&rt, &REPLACED)?);
    let kept = [FILE, LINK];
    for (knows_links, moments) in [(true, LINKED.as_slice()), (false, MADE.as_slice())] {
        let new = Placed {
            aside: "other.1.new",
            apart: Some("/other.0.new"),
            ..free(knows_links, &kept)
        };
        assert!(rt; new.stops_at_each(&rt, moments)?);
    }
    Ok(())
}

/// Nor is it one where it is the only name that is left.
#[test]
fn the_last_name_that_is_apart_is_left_alone(rt: HostRuntime) -> Result<(), Fail> {
    let mut host = MemoryHost::holding(rt.alloc(), &FILE_AND_LINK, None)?;
    for number in 1..100u32 {
        let name = format!(in rt.alloc(); "image.{number}.new")?;
        host.put(name.as_str(), Kind::File, b"mine")?;
    }
    let answer = place(&mut host, "image", Some("/image.0.new"), Placing::Over);
    assert!(rt; matches!(&answer, Err(error) if error.kind() == ErrorKind::AlreadyExists));
    assert!(rt; host.bytes("/image.0.new")?.is_none());
    assert!(rt; place(&mut host, "image", None, Placing::Over).is_ok());
    Ok(())
}

/// Whether the file took its place where the call after so many others fails, and this stands there.
fn fails_at(
    rt: &HostRuntime,
    placed: &Placed<'_>,
    failing: u32,
    answer: bool,
    moment: Moment<'_>,
) -> io::Result<bool> {
    let mut host = placed.host(rt, Some(failing))?;
    Ok(placed.takes_place(&mut host) == answer && placed.is_at(&host, moment)?)
}

/// Where the second name is refused, the new file takes its place as one without; where its first name stays, the new
/// file stands there all the same.
#[test]
fn each_call_of_a_linked_file_failing(rt: HostRuntime) -> Result<(), Fail> {
    let kept = [FILE, LINK];
    let new = free(true, &kept);
    for failing in 0..7u32 {
        assert!(rt;
            fails_at(&rt, &new, failing, false, (None, None))?,
            "call {failing}"
        );
    }
    let whole = Some("newer");
    assert!(rt; fails_at(&rt, &new, 7, true, (whole, None))?);
    assert!(rt; fails_at(&rt, &new, 8, true, (whole, Some((0o600, "newer"))))?);
    assert!(rt; fails_at(&rt, &new, 9, true, (whole, None))?);
    Ok(())
}
