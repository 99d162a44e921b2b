// The paths of what is made in a folder.
ghost use Rattle.std.specs.Prelude.{◌≡◌, ◌↔◌, ◌++◌, codes, Contains, IsTrue, MatchOption};
ghost use Rattle.host_folders.specs.Path.{IsSafeName, IsSafePath};

/// The most bytes of a name.
const MOST_BYTES: usize = 255;

/// Whether a path is safe: names with `/` between each two, each of them not empty, of at most 255 bytes, without a
/// zero byte, and neither `.` nor `..`.
pub fn is_safe_path(path: &str) -> bool
    ensures { IsTrue result ↔ IsSafePath path.now }
{
    let mut rest = path;
    while let Some((parent, name)) = last_split(rest) {
        if !is_safe_name(name) {
            return false;
        }
        rest = parent;
    }
    is_safe_name(rest)
}

// What stands before the last slash of a path, and the name behind it.
fn last_split(path: &str) -> Option<(&str, &str)>
    ensures { MatchOption result (¬ Contains path.now 47)
        (λ split. (path.now ≡ split.0.now ++ codes "/" ++ split.1.now) × (¬ Contains split.1.now 47)) }
{
    path.rsplit_once('/')
}

// Whether a name is safe.
fn is_safe_name(name: &str) -> bool
    ensures { IsTrue result ↔ IsSafeName name.now }
{
    let bytes = name.as_bytes();
    !matches!(name, "" | "." | "..")
        && bytes.len() <= MOST_BYTES
        && !bytes.contains(&b'/')
        && !bytes.contains(&0)
}
