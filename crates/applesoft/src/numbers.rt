// The number of a line.
ghost use Rattle.std.specs.Prelude.{◌≡◌, ◌<◌, true, All, drop, take};
ghost use Rattle.std.specs.Char.{is_ascii_digit};
ghost use Rattle.std.specs.List.{prefix_len};
ghost use Rattle.std.specs.Option.{SomeIff};
ghost use Rattle.std.specs.Str.Parse.{digits_value};

// How many digits a text begins with.
fn digits_len(text: &[u8]) -> usize
    ensures { result ≡ prefix_len is_ascii_digit text.now }
{
    text.iter().take_while(|c| c.is_ascii_digit()).count()
}

/// The digits that a text begins with, and the text behind them.
pub(crate) fn split_digits(text: &[u8]) -> (&[u8], &[u8])
    ensures digits { result.0.now ≡ take (prefix_len is_ascii_digit text.now) text.now }
    ensures are { All (λ c. is_ascii_digit c ≡ true) result.0.now }
    ensures rest { result.1.now ≡ drop (prefix_len is_ascii_digit text.now) text.now }
{
    text.split_at(digits_len(text))
}

/// The number that digits write, where it is one of a line.
pub(crate) fn number_of(digits: &[u8]) -> Option<u16>
    requires { All (λ c. is_ascii_digit c ≡ true) digits.now }
    ensures { SomeIff result (digits_value 10 digits.now < 65536) (digits_value 10 digits.now) }
{
    let mut number = 0u32;
    for digit in digits {
        number = 10 * number + u32::from(*digit - b'0');
        if number > 65_535 {
            return None;
        }
    }
    Some(number as u16)
}
