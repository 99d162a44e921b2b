// The parts of a file, as a list of JSON.
ghost use Rattle.std.specs.Prelude.{◌≡◌, Some, ◌∷◌, flat_map, map};
ghost use Rattle.a2_device.specs.declared.part.Part.{Part};
ghost use Rattle.json.specs.Print.{escape, quoted};
ghost use Rattle.serde_json.specs.Written.{compact_text};
ghost use Rattle.row_text.specs.Places.{part_text};
ghost use Rattle.row_text.specs.Row.{texts_value};

use crate::places::PartText;
use a2_device::Part;
use std::fmt;
use vol_layout::PlaceForm;

// No character of a part's text is escaped in a string. It does nothing, and is called for this clause.
fn part_stands(form: PlaceForm, part: Part)
    ensures { escape (part_text form part) ≡ part_text form part }
{}

// A part, as a string of JSON.
#[derive(Clone, Copy)]
struct PartString {
    form: PlaceForm,
    part: Part,
}

impl fmt::Display for PartString {
    ghost output = { λ p. Some (quoted (part_text p.form p.part)) };

    fn fmt<W: fmt::Write>(&self, f: &mut fmt::Formatter<W>) -> fmt::Result {
        let PartString { form, part } = *self;
        part_stands(form, part);
        let text = PartText { form, part };
        write!(f, "\"{text}\"")
    }
}

// Parts as strings of JSON, with a comma before each.
#[derive(Clone, Copy)]
struct LaterParts<'a> {
    form: PlaceForm,
    parts: &'a [Part],
}

impl fmt::Display for LaterParts<'_> {
    ghost output = { λ p. Some (flat_map (λ (part : Part). 44 ∷ quoted (part_text p.form part)) p.parts.now) };

    fn fmt<W: fmt::Write>(&self, f: &mut fmt::Formatter<W>) -> fmt::Result {
        let form = self.form;
        let parts = self.parts;
        for part in parts {
            let text = PartString { form, part: *part };
            write!(f, ",{text}")?;
        }
        Ok(())
    }
}

/// The parts of a file, as a list of JSON of their texts.
#[derive(Clone, Copy)]
pub struct PartsList<'a> {
    pub form: PlaceForm,
    pub parts: &'a [Part],
}

impl fmt::Display for PartsList<'_> {
    ghost output = { λ l. Some (compact_text (texts_value (map (part_text l.form) l.parts.now))) };

    fn fmt<W: fmt::Write>(&self, f: &mut fmt::Formatter<W>) -> fmt::Result {
        let form = self.form;
        match self.parts {
            [] => write!(f, "[]"),
            [first, later @ ..] => {
                let first = PartString { form, part: *first };
                let later = LaterParts { form, parts: later };
                write!(f, "[{first}{later}]")
            }
        }
    }
}
