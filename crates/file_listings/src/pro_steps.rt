// The steps of a plan of a ProDOS volume, in words.
ghost use Rattle.std.specs.Prelude.{◌≡◌, ◌<◌, length, IfOk, OnOk};
ghost use Rattle.pro_format.specs.Pro.{directory_with};
ghost use Rattle.pro_format.specs.ProVolume.{map_in, system_of, tree_of};
ghost use Rattle.file_formats.specs.ProFiles.{pro_files};
ghost use Rattle.file_listings.specs.ProSteps.{count_line, line_in, plan_in, plan_line, step_at};
ghost use Rattle.file_listings.specs.Steps.{path_of};

use crate::count::CountText;
use crate::most_path_bytes;
use crate::step::{Step, StepText};
use file_formats::listed_entry;
use pro_format::ProVolume;
use std::alloc::{AllocError, Allocator, Global};
use std::mem;
use vol_layout::PlaceForm;

/// The most bytes that a line takes beside its path.
const LINE_BYTES: usize = 64;

// The path of a file, in this vector; none of a number that no entry has.
fn path_in<A: Allocator, B: Allocator>(
    volume: &ProVolume<A>,
    file: u32,
    mut path: Vec<u8, B>,
) -> Result<Vec<u8, B>, AllocError>
    ensures { IfOk result (λ path. path.items ≡ path_of pro_files
        (directory_with (system_of volume.now) (tree_of volume.now) (map_in volume.now).units) file) }
{
    if (file as usize) < volume.directory().entries().len() {
        return Ok(listed_entry(volume, file, path)?.path.into_bytes());
    }
    path.clear();
    Ok(path)
}

/// The steps of a plan of a ProDOS volume that was read, in words, of which one line is made at a time. The room for
/// the longest is taken first, so that no line that is made later wants memory.
pub struct ProSteps<A: Allocator = Global> {
    alloc: A,
    volume: ProVolume<A>,
    steps: Vec<Step, A>,
    path: Vec<u8, A>,
    line: String<A>,
}

impl<A: Allocator> Drop for ProSteps<A> {
    fn drop(self) {
        let ProSteps {
            alloc: _,
            volume: _,
            steps: _,
            path: _,
            line: _,
        } = self;
    }
}

impl<A: Allocator + Copy> ProSteps<A> {
    /// The steps of a plan of a volume, with no line made yet.
    ///
    /// # Errors
    /// Want of memory alone.
    pub fn new(
        alloc: A,
        volume: ProVolume<A>,
        steps: Vec<Step, A>,
    ) -> Result<ProSteps<A>, AllocError>
        ensures { IfOk result (λ lines. plan_in lines ≡ record {
          directory = directory_with (system_of volume)
              (tree_of volume) (map_in volume).units;
          steps = steps.items;
        }) }
    {
        let most = most_path_bytes(&volume);
        let path = Vec::with_capacity(alloc, most)?;
        let line = String::with_capacity(alloc, most + LINE_BYTES)?;
        Ok(ProSteps {
            alloc,
            volume,
            steps,
            path,
            line,
        })
    }

    /// How many steps there are.
    pub fn steps(&self) -> usize
        ensures { result ≡ length (plan_in self.now).steps }
    {
        self.steps.len()
    }

    /// The line that was made last, with its end.
    pub fn line(&self) -> &[u8]
        ensures { result.now ≡ line_in self.now }
    {
        self.line.as_bytes()
    }

    /// Makes the line of a step.
    ///
    /// # Errors
    /// Want of memory alone.
    pub fn make_step(&mut self, number: usize) -> Result<(), AllocError>
        requires { number < length (plan_in self.old).steps }
        ensures line { OnOk result
            (line_in self.new ≡ plan_line (plan_in self.old) (step_at (plan_in self.old) number)) }
        ensures plan { plan_in self.new ≡ plan_in self.old }
    {
        let step = self.steps[number];
        let path = mem::replace(&mut self.path, Vec::new(self.alloc));
        self.path = path_in(&self.volume, step.part.file, path)?;
        let line = StepText {
            form: PlaceForm::Block,
            path: self.path.as_slice(),
            step,
        };
        self.line.clear();
        writeln!(self.line, "{line}")?;
        Ok(())
    }

    /// Makes the last line: how many steps there are.
    ///
    /// # Errors
    /// Want of memory alone.
    pub fn make_count(&mut self) -> Result<(), AllocError>
        ensures line { OnOk result (line_in self.new ≡ count_line (plan_in self.old)) }
        ensures plan { plan_in self.new ≡ plan_in self.old }
    {
        let count = CountText(self.steps.len());
        self.line.clear();
        writeln!(self.line, "{count}")?;
        Ok(())
    }
}
