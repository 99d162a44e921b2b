//! What the words of a command leave out of the ways in which its image is read.
ghost use Rattle.std.specs.Prelude.{◌≡◌, option_map};
ghost use Rattle.shop_words.specs.Given.{words_of};
ghost use Rattle.shop_words.specs.Ways.{
  file_system_said,
  has_file_system,
  is_left,
  leaves_open,
  may_leave,
  or_auto,
  order_said,
};

use crate::given::Given;
use crate::table::{LeftOut, Reading};

impl LeftOut {
    // Whether what words leave out is found.
    fn lets(self, is_auto: bool, in_place: bool) -> bool
        ensures { result ≡ is_left self is_auto in_place }
    {
        match self {
            LeftOut::ByAuto => is_auto,
            LeftOut::Always => true,
            LeftOut::UnlessInPlace => is_auto || !in_place,
        }
    }
}

impl Reading {
    fn has_file_system(self) -> bool
        ensures { result ≡ has_file_system self }
    {
        matches!(self, Reading::Volume(_))
    }

    fn may_leave(self, is_auto: bool, in_place: bool) -> bool
        ensures { result ≡ may_leave self is_auto in_place }
    {
        match self {
            Reading::Nothing => false,
            Reading::Volume(left)
            | Reading::Prodos(left)
            | Reading::Order(left)
            | Reading::Bare(left) => left.lets(is_auto, in_place),
        }
    }
}

impl<'a> Given<'_, 'a> {
    // Whether the words may leave out in which way the image is read.
    fn leaves_open(&self) -> bool
        ensures { result ≡ leaves_open (words_of self.now) }
    {
        let in_place = self.has("in-place");
        self.form.reading.may_leave(self.is_auto, in_place)
    }

    // A word, or `auto` where it may be left out.
    fn or_auto(&self, is_open: bool, word: Option<&'a str>) -> Option<&'a str>
        ensures { option_map (λ s. s.now) result ≡ or_auto is_open (option_map (λ s. s.now) word.entry) }
    {
        match word {
            Some(word) => Some(word),
            None if is_open => Some("auto"),
            None => None,
        }
    }

    /// What the words say of the file system.
    pub fn file_system_said(&self) -> Option<&'a str>
        ensures { option_map (λ s. s.now) result ≡ file_system_said (words_of self.now) }
    {
        let is_open = self.form.reading.has_file_system() && self.leaves_open();
        self.or_auto(is_open, self.said("fs"))
    }

    /// What the words say of the order.
    pub fn order_said(&self) -> Option<&'a str>
        ensures { option_map (λ s. s.now) result ≡ order_said (words_of self.now) }
    {
        self.or_auto(self.leaves_open(), self.said("order"))
    }
}
