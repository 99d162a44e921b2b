// One step of a plan, in words.
ghost use Rattle.std.specs.Prelude.{Some};
ghost use Rattle.file_listings.specs.Steps.{step_text};

use crate::shown_path::ShownPath;
use a2_device::Part;
use row_text::kind_word;
use std::fmt;
use vol_layout::{PlaceForm, PlaceWord};

/// One move of a plan: the part where it stands before the move, and the place to which it goes.
#[derive(Clone, Copy)]
pub struct Step {
    pub part: Part,
    pub to: u32,
}

/// A step of a plan, with the path of its file, as the directory has it.
#[derive(Clone, Copy)]
pub struct StepText<'a> {
    pub form: PlaceForm,
    pub path: &'a [u8],
    pub step: Step,
}

impl fmt::Display for StepText<'_> {
    ghost output = { λ t. Some (step_text t.form t.path.now t.step) };

    fn fmt<W: fmt::Write>(&self, f: &mut fmt::Formatter<W>) -> fmt::Result {
        let StepText { form, path, step } = *self;
        let path = ShownPath { form, path };
        let kind = kind_word(step.part.kind);
        let number = step.part.number;
        let from = PlaceWord {
            form,
            place: step.part.place,
        };
        let to = PlaceWord {
            form,
            place: step.to,
        };
        write!(f, "{path} {kind} {number} from {from} to {to}")
    }
}
