// The words for places, as they are told.
ghost use Rattle.std.specs.Prelude.{Some};
ghost use Rattle.vol_layout.specs.Reserved.{told_place};

use crate::form::PlaceForm;
use std::fmt;

/// A place, as it is told: its track and its sector as `17/0`, or its block as `block 280`.
#[derive(Clone, Copy)]
pub struct PlaceWord {
    pub form: PlaceForm,
    pub place: u32,
}

impl fmt::Display for PlaceWord {
    ghost output = { λ w. Some (told_place w.form w.place) };

    fn fmt<W: fmt::Write>(&self, f: &mut fmt::Formatter<W>) -> fmt::Result {
        let place = self.place;
        match self.form {
            PlaceForm::Sector => {
                let track = place / 16;
                let sector = place % 16;
                write!(f, "{track}/{sector}")
            }
            PlaceForm::Block => write!(f, "block {place}"),
        }
    }
}
