// Which file a path leads to.
ghost use Rattle.std.specs.Prelude.{◌≡◌, ◌↔◌, IsTrue, option_map};
ghost use Rattle.shop_files.specs.Roles.{AreOneFile, ShareSome, identity_view};

use shop_host::Node;

/// Which file a role of a job has: by its path, with folders resolved and links followed, and by its device and number.
/// A file that is not there yet has the path alone, standard input the number alone, and what is no regular file
/// neither.
#[derive(Clone, Copy)]
pub struct FileIdentity<'a> {
    pub path: Option<&'a str>,
    pub node: Option<Node>,
}

// Whether two paths are known and are the same.
fn is_same_path(one: Option<&str>, other: Option<&str>) -> bool
    ensures { IsTrue result ↔ ShareSome (option_map (λ s. s.now) one.entry) (option_map (λ s. s.now) other.entry) }
{
    match (one, other) {
        (Some(one), Some(other)) => one == other,
        _ => false,
    }
}

// Whether two files are known by their numbers and are the same.
fn is_same_node(one: Option<Node>, other: Option<Node>) -> bool
    ensures { IsTrue result ↔ ShareSome one other }
{
    match (one, other) {
        (Some(one), Some(other)) => one == other,
        _ => false,
    }
}

/// Whether two roles have one file.
pub fn is_same_file(one: FileIdentity<'_>, other: FileIdentity<'_>) -> bool
    ensures { IsTrue result ↔ AreOneFile (identity_view one.entry) (identity_view other.entry) }
{
    is_same_path(one.path, other.path) || is_same_node(one.node, other.node)
}
