// How many steps a plan has, in words.
ghost use Rattle.std.specs.Prelude.{Some};
ghost use Rattle.file_listings.specs.Steps.{count_text};

use std::fmt;

/// How many moves there are.
#[derive(Clone, Copy)]
pub struct CountText(pub usize);

impl fmt::Display for CountText {
    ghost output = { λ t. Some (count_text t.0) };

    fn fmt<W: fmt::Write>(&self, f: &mut fmt::Formatter<W>) -> fmt::Result {
        let count = self.0;
        if count == 1 {
            write!(f, "{count} move")
        } else {
            write!(f, "{count} moves")
        }
    }
}
