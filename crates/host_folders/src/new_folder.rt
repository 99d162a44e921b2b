// The names that a folder may have.
ghost use Rattle.std.specs.Prelude.{◌≡◌, ◌↔◌, IfSome, IsNone, IsTrue};
ghost use Rattle.host_folders.specs.NewFolder.{EndsWith, IsFolderName, NamesNoFolder, without_last_slashes};

/// The path of a folder that is to be made, without slashes at its end; none where it is empty then, or its last name
/// is `.` or `..`.
pub fn folder_name(given: &str) -> Option<&str>
    ensures name { IfSome result (λ name. name.now ≡ without_last_slashes given.now) }
    ensures named { IfSome result (λ name. IsFolderName name.now) }
    ensures none { IsNone result ↔ NamesNoFolder (without_last_slashes given.now) }
{
    let name = without_slashes(given);
    if names_no_folder(name) {
        None
    } else {
        Some(name)
    }
}

// A path without the slashes at its end.
fn without_slashes(path: &str) -> &str
    ensures cut { result.now ≡ without_last_slashes path.now }
    ensures unslashed { without_last_slashes result.now ≡ result.now }
{
    path.trim_end_matches('/')
}

// Whether a path without slashes at its end is empty, or its last name is `.` or `..`.
fn names_no_folder(path: &str) -> bool
    ensures { IsTrue result ↔ NamesNoFolder path.now }
{
    matches!(path, "" | "." | "..") || ends_in(path, "/.") || ends_in(path, "/..")
}

// Whether a path ends in a text.
fn ends_in(path: &str, text: &str) -> bool
    ensures { IsTrue result ↔ EndsWith path.now text.now }
{
    path.ends_with(text)
}
