// A part of a file as a file.
ghost use Rattle.std.specs.Prelude.{◌≡◌, ◌⊎◌, ◌<◌, ◌≤◌, ◌+◌, ◌^◌, IsTrue, OnErr, OnOk, length, slice_range};
ghost use Rattle.a2_media.specs.File.{FileState, IsSameFile, after_write, last_standing};
ghost use Rattle.a2_media.specs.Window.{IsSameAround, window_state};
ghost use Rattle.a2_media.specs.lemmas.Windows.{whole_window};

use crate::file::{FileFailure, PositionedFile};

/// Where so many bytes stand in a file.
#[derive(Clone, Copy)]
pub struct Extent {
    /// Where the first of them stands.
    pub start: u64,
    /// How many they are.
    pub size: u64,
}

/// So many bytes of a file, from an offset on, as a file. What stands around them is never written.
#[derive(Drop)]
pub struct Window<F: PositionedFile> {
    file: F,
    extent: Extent,
    ghost inside: { extent.start + extent.size ≤ (F.state file).size },
    ghost few: { (F.state file).size < 2 ^ 64 },
}

impl<F: PositionedFile> Window<F> {
    /// A part of a file.
    pub fn new(file: F, extent: Extent) -> Self
        requires inside { extent.start + extent.size ≤ (F.state file).size }
        requires few { (F.state file).size < 2 ^ 64 }
        ensures state { ⟦<Window<F> as PositionedFile>⟧.state result
            ≡ window_state extent.start extent.size (F.state file) }
        ensures file { result.file ≡ file }
        ensures extent { result.extent ≡ extent }
    {
        Window { file, extent }
    }

    /// The file.
    pub fn file(&self) -> &F
        ensures { result.now ≡ self.now.file }
    {
        &self.file
    }

    /// The file.
    pub fn into_file(self) -> F
        ensures { result ≡ self.file }
    {
        let Window { file, .. } = self;
        file
    }
}

impl<F: PositionedFile> PositionedFile for Window<F> {
    ghost state = { λ w. window_state w.extent.start w.extent.size (F.state w.file) };

    ghost whole = { λ w h. whole_window w.extent.start w.extent.size (F.state w.file) (F.whole w.file h) w.inside };

    fn size(&self) -> u64 {
        self.extent.size
    }

    fn read_whole(&mut self, position: u64, bytes: &mut [u8]) -> Result<(), FileFailure>
        requires inside { position + length bytes.old ≤ self.old.extent.size }

        // every file
        ensures same { IsSameFile
            (window_state self.old.extent.start self.old.extent.size (F.state self.old.file))
            (window_state self.new.extent.start self.new.extent.size (F.state self.new.file)) }
        ensures standing { (F.state self.new.file).standing ≡ (F.state self.old.file).standing }
        ensures extent { self.new.extent ≡ self.old.extent }

        // an honest file
        ensures read { IsTrue (F.state self.old.file).honest → OnOk result (bytes.new ≡ slice_range
            (window_state self.old.extent.start self.old.extent.size (F.state self.old.file)).bytes
            position (position + length bytes.old)) }
        ensures kept { IsTrue (F.state self.old.file).honest
            → window_state self.new.extent.start self.new.extent.size (F.state self.new.file)
            ≡ window_state self.old.extent.start self.old.extent.size (F.state self.old.file) }
        ensures around { IsTrue (F.state self.old.file).honest
            → IsSameAround self.old.extent.start self.old.extent.size (F.state self.old.file) (F.state self.new.file) }
    {
        self.file.read_whole(self.extent.start + position, bytes)
    }

    fn write_whole(&mut self, position: u64, bytes: &[u8]) -> Result<(), FileFailure>
        requires inside { position + length bytes.now ≤ self.old.extent.size }
        requires room { (F.state self.old.file).standing < last_standing }

        // every file
        ensures same { IsSameFile
            (window_state self.old.extent.start self.old.extent.size (F.state self.old.file))
            (window_state self.new.extent.start self.new.extent.size (F.state self.new.file)) }
        ensures standing { (F.state self.new.file).standing ≤ (F.state self.old.file).standing + 1 }
        ensures extent { self.new.extent ≡ self.old.extent }

        // an honest file
        ensures written { IsTrue (F.state self.old.file).honest → OnOk result
            (window_state self.new.extent.start self.new.extent.size (F.state self.new.file)
            ≡ after_write position bytes.now
            (window_state self.old.extent.start self.old.extent.size (F.state self.old.file))) }
        ensures failed { IsTrue (F.state self.old.file).honest → OnErr result
            ((window_state self.new.extent.start self.new.extent.size (F.state self.new.file)
            ≡ window_state self.old.extent.start self.old.extent.size (F.state self.old.file))
            ⊎ (window_state self.new.extent.start self.new.extent.size (F.state self.new.file)
            ≡ after_write position bytes.now
            (window_state self.old.extent.start self.old.extent.size (F.state self.old.file)))) }
        ensures around { IsTrue (F.state self.old.file).honest
            → IsSameAround self.old.extent.start self.old.extent.size (F.state self.old.file) (F.state self.new.file) }
    {
        self.file.write_whole(self.extent.start + position, bytes)
    }
}
