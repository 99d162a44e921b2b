// Values of JSON that stand in a row: texts, and what may be left out.
ghost use Rattle.std.specs.Prelude.{◌≡◌, Some, map};
ghost use Rattle.json.specs.Print.{escape, escape_byte, quoted};
ghost use Rattle.serde_json.specs.Written.{compact_text};
ghost use Rattle.row_text.specs.Row.{number_or_null, text_or_null};
ghost use Rattle.row_text.specs.Shown.{lower_hex, shown, upper_hex};

use crate::shown::{LowerHex, UpperHex, shown_byte};
use std::fmt;

// A byte as it is shown in a string. What is shown prints, so no other character is escaped.
#[derive(Clone, Copy)]
struct EscapedByte(u8);

impl fmt::Display for EscapedByte {
    ghost output = { λ b. Some (escape_byte (shown b.0)) };

    #[tactic(auto, using(crate::proofs::Plain::stands), unfolding(json::specs::Print::escape_byte))]
    fn fmt<W: fmt::Write>(&self, f: &mut fmt::Formatter<W>) -> fmt::Result {
        let byte = shown_byte(self.0);
        match byte {
            b'"' => write!(f, "\\\""),
            b'\\' => write!(f, "\\\\"),
            _ => write!(f, "{}", char::from(byte)),
        }
    }
}

// The bytes of a text as they are shown in a string.
#[derive(Clone, Copy)]
struct EscapedBytes<'a>(&'a [u8]);

impl fmt::Display for EscapedBytes<'_> {
    ghost output = { λ t. Some (escape (map shown t.0.now)) };

    fn fmt<W: fmt::Write>(&self, f: &mut fmt::Formatter<W>) -> fmt::Result {
        let text = self.0;
        for byte in text {
            let escaped = EscapedByte(*byte);
            write!(f, "{escaped}")?;
        }
        Ok(())
    }
}

/// A text, as a string of JSON.
#[derive(Clone, Copy)]
pub struct JsonText<'a>(pub &'a [u8]);

impl fmt::Display for JsonText<'_> {
    ghost output = { λ t. Some (quoted (map shown t.0.now)) };

    fn fmt<W: fmt::Write>(&self, f: &mut fmt::Formatter<W>) -> fmt::Result {
        let escaped = EscapedBytes(self.0);
        write!(f, "\"{escaped}\"")
    }
}

// No digit of a byte is escaped in a string. It does nothing, and is called for these clauses.
fn digits_stand(bytes: &[u8])
    ensures lower { escape (lower_hex bytes.now) ≡ lower_hex bytes.now }
    ensures upper { escape (upper_hex bytes.now) ≡ upper_hex bytes.now }
{}

/// Bytes in lower-case hexadecimal digits, as a string of JSON.
#[derive(Clone, Copy)]
pub struct LowerString<'a>(pub &'a [u8]);

impl fmt::Display for LowerString<'_> {
    ghost output = { λ t. Some (quoted (lower_hex t.0.now)) };

    fn fmt<W: fmt::Write>(&self, f: &mut fmt::Formatter<W>) -> fmt::Result {
        let bytes = self.0;
        digits_stand(bytes);
        let digits = LowerHex(bytes);
        write!(f, "\"{digits}\"")
    }
}

/// Bytes in upper-case hexadecimal digits, as a string of JSON.
#[derive(Clone, Copy)]
pub struct UpperString<'a>(pub &'a [u8]);

impl fmt::Display for UpperString<'_> {
    ghost output = { λ t. Some (quoted (upper_hex t.0.now)) };

    fn fmt<W: fmt::Write>(&self, f: &mut fmt::Formatter<W>) -> fmt::Result {
        let bytes = self.0;
        digits_stand(bytes);
        let digits = UpperHex(bytes);
        write!(f, "\"{digits}\"")
    }
}

/// A text of sixteen bytes, or `null`.
#[derive(Clone, Copy)]
pub struct TextOrNull<'a>(pub &'a Option<[u8; 16]>);

impl fmt::Display for TextOrNull<'_> {
    ghost output = { λ t. Some (compact_text (text_or_null t.0.now)) };

    fn fmt<W: fmt::Write>(&self, f: &mut fmt::Formatter<W>) -> fmt::Result {
        match self.0 {
            Some(bytes) => {
                let text = JsonText(bytes);
                write!(f, "{text}")
            }
            None => write!(f, "null"),
        }
    }
}

/// A number, or `null`.
#[derive(Clone, Copy)]
pub struct NumberOrNull(pub Option<u32>);

impl fmt::Display for NumberOrNull {
    ghost output = { λ n. Some (compact_text (number_or_null n.0)) };

    fn fmt<W: fmt::Write>(&self, f: &mut fmt::Formatter<W>) -> fmt::Result {
        match self.0 {
            Some(number) => write!(f, "{number}"),
            None => write!(f, "null"),
        }
    }
}
