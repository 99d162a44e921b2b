// Numbers in hexadecimal digits.
ghost use Rattle.std.specs.Prelude.{◌≡◌, ℕ, List, [], ◌∷◌, Some, None, IfSome, IfNone, if◌then◌else◌};
ghost use Rattle.std.specs.Char.{digit_value, is_digit};
ghost use Rattle.host_folders.specs.HostEntries.{IsHexadecimal};
ghost use Rattle.host_folders.specs.Reading.{BeginsWithNumber};

// The value of a hexadecimal digit of either case.
fn digit(c: u8) -> Option<u8>
    ensures { result ≡ (if is_digit c 16 then Some (digit_value c) else None) }
{
    match c {
        b'0'..=b'9' => Some(c - b'0'),
        b'A'..=b'F' => Some(c - b'A' + 10),
        b'a'..=b'f' => Some(c - b'a' + 10),
        _ => None,
    }
}

// The byte that two digits say.
fn byte(high: u8, low: u8) -> Option<u8>
    ensures some { IfSome result (λ byte. IsHexadecimal 2 (high ∷ low ∷ []) byte) }
    ensures none { IfNone result ((byte : ℕ) → ¬ IsHexadecimal 2 (high ∷ low ∷ []) byte) }
{
    Some(digit(high)? * 16 + digit(low)?)
}

/// The byte that the two digits say that a text begins with, and the text behind them.
pub(crate) fn first_number(text: &[u8]) -> Option<(u8, &[u8])>
    ensures some { IfSome result (λ first. BeginsWithNumber text.now first.0 first.1.now) }
    ensures none { IfNone result ((n : ℕ) (rest : List ℕ) → ¬ BeginsWithNumber text.now n rest) }
{
    match text {
        [high, low, rest @ ..] => Some((byte(*high, *low)?, rest)),
        _ => None,
    }
}
