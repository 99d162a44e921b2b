// Files of the host's folders.
use host_folders::Naming;

/// How the files of a volume are put into a folder.
#[derive(Clone, Copy, PartialEq, Eq)]
pub struct ExtractOptions {
    /// Whether the type and the aux type of a file stand in its name.
    pub naming: Naming,
    /// Whether the readable form of a file is put beside it, or in its place where names tell no types.
    pub texts: bool,
    /// How many bytes the files that are written may have in all.
    pub most: u64,
}

/// How the files of a folder are added to a volume.
#[derive(PartialEq, Eq, Drop)]
pub struct AddOptions {
    /// The path of the directory of the volume under which the paths of the files begin, if one is said.
    pub into: Option<String>,
    /// The date and time of their creation, as they are said.
    pub date: Option<String>,
}

/// In which form a survey is told.
#[derive(Clone, Copy, PartialEq, Eq)]
pub enum SurveyForm {
    /// Words.
    Lines,
    /// An object of JSON on a line.
    Json,
}
