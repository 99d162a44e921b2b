//! How files are read on a host, and a folder is gone through.

use memory_host::{Kind, MemoryHost};
use shop_host::{Finder, Kind as Leads, Readable, Root, front_of_input, read_file};
use shop_replies::Failure;
use std::alloc::{AllocError, Global};
use std::test::Fail;

/// Something of each kind, and a folder in a folder.
static ITEMS: [(&str, Kind, &str); 8] = [
    ("image", Kind::File, "image of a disk"),
    ("link", Kind::Link, "image"),
    ("pipe", Kind::Pipe, "what waits"),
    ("in", Kind::Folder, ""),
    ("in/a", Kind::File, "one"),
    ("in/sub", Kind::Folder, ""),
    ("in/sub/b", Kind::File, "two"),
    ("in/sub/link", Kind::Link, "image"),
];

/// Whether a file is read as this front of its bytes, or not for such a reason.
fn reads(
    host: &mut MemoryHost,
    path: &str,
    readable: Readable,
    answer: Result<&str, Failure>,
) -> bool {
    match (&read_file(host, path, readable, 4), answer) {
        (Ok(bytes), Ok(text)) => bytes.as_slice() == text.as_bytes(),
        (Err(failure), Err(stated)) => *failure == stated,
        _ => false,
    }
}

#[test]
fn a_front_of_a_file_is_read(rt: HostRuntime) -> Result<(), Fail> {
    let mut host = MemoryHost::holding(rt.alloc(), &ITEMS, None)?;
    let found = read_file(&mut host, "image", Readable::File, 4);
    assert!(rt; matches!(&found, Ok(bytes) if bytes.as_slice() == b"image".as_slice()));
    assert!(rt; reads(&mut host, "link", Readable::Any, Ok("image")));
    assert!(rt; reads(&mut host, "link", Readable::File, Ok("image")));
    assert!(rt; reads(&mut host, "link", Readable::FileItself, Err(Failure::Input)));
    assert!(rt; reads(&mut host, "pipe", Readable::Any, Ok("what ")));
    assert!(rt; reads(&mut host, "pipe", Readable::File, Err(Failure::Input)));
    assert!(rt; reads(&mut host, "in", Readable::File, Err(Failure::Input)));
    assert!(rt; reads(&mut host, "none", Readable::Any, Err(Failure::Input)));
    Ok(())
}

/// The calls: looked at, opened, locked, read twice. A lock that the file system does not know is none.
#[test]
fn each_call_of_a_read_failing(rt: HostRuntime) -> Result<(), Fail> {
    for failing in 0..5u32 {
        let mut host = MemoryHost::holding(rt.alloc(), &ITEMS, Some(failing))?;
        let answer = if failing == 2 {
            Ok("image")
        } else {
            Err(Failure::Input)
        };
        assert!(rt;
            reads(&mut host, "image", Readable::File, answer),
            "call {failing}"
        );
    }
    Ok(())
}

/// How many bytes are asked for at once.
const CHUNK: usize = 65_536;

/// So many bytes, whose pattern does not meet the end of a chunk.
fn long_text(alloc: Global, count: usize) -> Result<Vec<u8>, AllocError> {
    let mut bytes = Vec::new(alloc);
    for at in 0..count {
        bytes.push((at % 251) as u8)?;
    }
    Ok(bytes)
}

/// Whether these bytes were read of so many, up to one past the most.
fn is_front(read: &Result<Vec<u8>, Failure>, bytes: &[u8], most: u32) -> bool {
    let front = bytes.get(..most as usize + 1).unwrap_or(bytes);
    matches!(read, Ok(read) if read.as_slice() == front)
}

/// How many bytes there are, and how many are read at most: as many as a chunk has, one less and one more.
static LONG: [(usize, u32); 5] = [
    (CHUNK, 65_535),
    (CHUNK, 65_536),
    (CHUNK + 1, 65_535),
    (CHUNK + 1, 65_536),
    (CHUNK + 7, 100_000),
];

#[test]
fn a_file_of_more_than_a_chunk_is_read(rt: HostRuntime) -> Result<(), Fail> {
    for (count, most) in &LONG {
        let bytes = long_text(rt.alloc(), *count)?;
        let mut host = MemoryHost::holding(rt.alloc(), &[], None)?;
        host.put("long", Kind::File, bytes.as_slice())?;
        let read = read_file(&mut host, "long", Readable::File, *most);
        assert!(rt; is_front(&read, bytes.as_slice(), *most), "{count} {most}");
    }
    Ok(())
}

/// What is behind the front is still to come.
#[test]
fn more_than_a_chunk_of_standard_input_is_read(rt: HostRuntime) -> Result<(), Fail> {
    for (count, most) in &LONG {
        let bytes = long_text(rt.alloc(), *count)?;
        let mut host = MemoryHost::holding(rt.alloc(), &[], None)?;
        host.give_input(bytes.as_slice())?;
        let read = front_of_input(&mut host, *most);
        assert!(rt; is_front(&read, bytes.as_slice(), *most), "{count} {most}");
        let rest = bytes.get(*most as usize + 1..).unwrap_or(&[]);
        let read = front_of_input(&mut host, *most);
        assert!(rt; is_front(&read, rest, *most), "{count} {most}");
    }
    Ok(())
}

/// How many of each kind a folder has.
#[derive(Clone, Copy, PartialEq, Eq)]
struct Counts {
    files: u32,
    folders: u32,
    others: u32,
    unread: u32,
}

impl Finder for Counts {
    fn passes_over(&self, _name: &str) -> bool {
        false
    }

    fn take(&mut self, _path: String, kind: Leads) -> Result<(), Failure> {
        let count = match kind {
            Leads::File => &mut self.files,
            Leads::Folder => &mut self.folders,
            Leads::Other => &mut self.others,
            Leads::Unread | Leads::Unnamed => &mut self.unread,
        };
        *count = count.saturating_add(1);
        Ok(())
    }
}

/// What is counted in the folder, where the call after so many others fails.
fn counted(
    rt: &HostRuntime,
    failing: Option<u32>,
) -> Result<Result<Counts, Failure>, std::io::Error> {
    let mut host = MemoryHost::holding(rt.alloc(), &ITEMS, failing)?;
    let mut counts = Counts {
        files: 0,
        folders: 0,
        others: 0,
        unread: 0,
    };
    let root = Root {
        alloc: rt.alloc(),
        path: "in",
    };
    match root.look_through(&mut host, &mut counts) {
        Ok(()) => Ok(Ok(counts)),
        Err(failure) => Ok(Err(failure)),
    }
}

#[test]
fn a_folder_is_gone_through_with_all_in_it(rt: HostRuntime) -> Result<(), Fail> {
    let all = Counts {
        files: 2,
        folders: 1,
        others: 1,
        unread: 0,
    };
    assert!(rt; counted(&rt, None)? == Ok(all));
    // The folder itself can't be read.
    assert!(rt; counted(&rt, Some(0))? == Err(Failure::Input));
    Ok(())
}
