// Whether readable forms of files are put into the folder.
ghost use Rattle.std.specs.Prelude.{◌≡◌};
ghost use Rattle.volume_extract.specs.Texts.{texts_for};

use host_folders::Naming;

/// How the files of a volume are put into a folder.
#[derive(Clone, Copy)]
pub struct Options {
    pub naming: Naming,
    /// Whether readable forms are wanted: beside files with a type in their names, and in the place of others.
    pub texts: bool,
    /// How many bytes all that is written may have.
    pub most: u64,
}

/// What is put into the folder of the readable form of a file.
#[derive(Clone, Copy)]
pub enum Texts {
    Without,
    /// It is put beside the file, where it gives just the bytes of the file back.
    Beside,
    /// It is put there in the place of the file.
    Alone,
}

impl Options {
    /// What is put into the folder of readable forms.
    pub(crate) fn texts_put(self) -> Texts
        ensures { result ≡ texts_for self.naming self.texts }
    {
        match (self.texts, self.naming) {
            (false, _) => Texts::Without,
            (true, Naming::Naps) => Texts::Beside,
            (true, Naming::Plain) => Texts::Alone,
        }
    }
}
