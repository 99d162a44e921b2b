// Paths: where they begin, and the folders that they are in.
ghost use Rattle.std.specs.Prelude.{◌≡◌, ◌==◌, ◌||◌, ◌-◌, ◌++◌, IfOk, codes, length, slice_index, string_bytes};
ghost use Rattle.std.specs.Path.{slash};
ghost use Rattle.shop_host.specs.State.{Path};
ghost use Rattle.shop_host.specs.Paths.{IsIn, behind as behind_folder, in_folder as path_in};
ghost use Rattle.memory_host.specs.Paths.{rooted as from_root, without_dot as plain};

use std::alloc::{AllocError, Global};

// A path without what says that it begins in the folder of the program.
fn without_dot(path: &str) -> &str
    ensures { result.now ≡ plain path.now }
{
    if path == "." {
        return "";
    }
    match path.strip_prefix("./") {
        Some(rest) => rest,
        None => path,
    }
}

// Whether a path begins at the root.
fn is_rooted(path: &str) -> bool
    ensures { result ≡ (slice_index path.now 0 == slash) }
{
    path.starts_with('/')
}

// Whether a name may follow a path as it is.
fn is_separated(path: &str) -> bool
    ensures { result ≡ (length path.now == 0 || slice_index path.now (length path.now - 1) == slash) }
{
    match path.as_bytes() {
        [] => true,
        [.., last] => *last == b'/',
    }
}

// A path, a slash and a name.
fn joined(alloc: Global, folder: &str, name: &str) -> Result<String, AllocError>
    ensures { IfOk result (λ path. string_bytes path ≡ folder.now ++ codes "/" ++ name.now) }
{
    format!(in alloc; "{folder}/{name}")
}

/// A path from the root on, which is the folder of the program too.
pub fn rooted(alloc: Global, path: &str) -> Result<String, AllocError>
    ensures { IfOk result (λ own. string_bytes own ≡ from_root path.now) }
{
    if is_rooted(path) {
        path.to_string(alloc)
    } else {
        joined(alloc, "", without_dot(path))
    }
}

/// The folder that a path is in, and its name there.
pub fn split(path: &str) -> (&str, &str)
    ensures { (folder name : Path) → IsIn folder name path.now
        → (folder ≡ result.0.now) × (name ≡ result.1.now) }
{
    match path.rsplit_once('/') {
        None => (".", path),
        Some((folder, name)) if folder.is_empty() => ("/", name),
        Some((folder, name)) => (folder, name),
    }
}

/// The path to which a link in a folder leads by its text.
pub fn behind(alloc: Global, folder: &str, to: &str) -> Result<String, AllocError>
    ensures { IfOk result (λ path. string_bytes path ≡ behind_folder folder.now to.now) }
{
    if is_rooted(to) {
        to.to_string(alloc)
    } else {
        joined(alloc, folder, to)
    }
}

/// The path of a name in a folder.
pub fn in_folder(alloc: Global, folder: &str, name: &str) -> Result<String, AllocError>
    ensures { IfOk result (λ path. string_bytes path ≡ path_in folder.now name.now) }
{
    if is_separated(folder) {
        format!(in alloc; "{folder}{name}")
    } else {
        joined(alloc, folder, name)
    }
}
