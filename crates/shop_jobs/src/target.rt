// Where what a job makes goes.
ghost use Rattle.std.specs.Prelude.{◌≡◌, option_map};
ghost use Rattle.shop_jobs.specs.Job.{file_of, folder_made, is_in_place as goes_in_place, is_new_file, target_view};

/// Where what a job makes goes.
#[derive(PartialEq, Eq, Drop)]
pub enum Target {
    /// It makes nothing that is kept.
    Nothing,
    /// To a new file of this path, where nothing stands.
    NewFile(String),
    /// To the file of this path, in the place of what stands there.
    File(String),
    /// Into the image's own file, which is changed where it stands.
    InPlace,
    /// To a new folder of this path.
    Folder(String),
}

impl Target {
    /// The path of the file.
    pub fn file(&self) -> Option<&str>
        ensures { option_map (λ s. s.now) result ≡ file_of (target_view self.now) }
    {
        match self {
            Target::NewFile(path) | Target::File(path) => Some(path.as_str()),
            Target::Nothing | Target::InPlace | Target::Folder(_) => None,
        }
    }

    /// The path of the folder.
    pub fn folder(&self) -> Option<&str>
        ensures { option_map (λ s. s.now) result ≡ folder_made (target_view self.now) }
    {
        match self {
            Target::Folder(path) => Some(path.as_str()),
            Target::Nothing | Target::NewFile(_) | Target::File(_) | Target::InPlace => None,
        }
    }

    /// Whether the file is to be a new one.
    pub fn is_new_file(&self) -> bool
        ensures { result ≡ is_new_file (target_view self.now) }
    {
        matches!(self, Target::NewFile(_))
    }

    /// Whether the image is changed in its own file.
    pub fn is_in_place(&self) -> bool
        ensures { result ≡ goes_in_place (target_view self.now) }
    {
        matches!(self, Target::InPlace)
    }
}
