// Characters, and how a byte is escaped.
ghost use Rattle.std.specs.Prelude.{◌≡◌, ◌<◌};
ghost use Rattle.std.specs.Char.{digit_char};
ghost use Rattle.host_folders.specs.HostNames.{digits, escape, is_plain, is_printed, without_end};

/// Whether a character is a space or one that is seen.
pub(crate) fn is_printed(c: u8) -> bool
    ensures { result ≡ is_printed c }
{
    matches!(c, 0x20..=0x7e)
}

/// Whether a character stands for itself in a stem.
pub(crate) fn is_plain(c: u8) -> bool
    ensures { result ≡ is_plain c }
{
    is_printed(c)
        && !matches!(
            c,
            b'"' | b'%' | b'*' | b'/' | b':' | b'<' | b'>' | b'?' | b'\\' | b'|' | b'~'
        )
}

// A hexadecimal digit, lower case.
fn hex_digit(n: u8) -> u8
    requires { n < 16 }
    ensures { result ≡ digit_char n }
{
    match n {
        0..=9 => b'0' + n,
        _ => b'a' + n - 10,
    }
}

/// The two hexadecimal digits of a byte.
pub(crate) fn digits(byte: u8) -> [u8; 2]
    ensures { result ≡ digits byte }
{
    [hex_digit(byte / 16), hex_digit(byte % 16)]
}

/// `%` and the digits of a byte.
pub(crate) fn escape(byte: u8) -> [u8; 3]
    ensures { result ≡ escape byte }
{
    let [high, low] = digits(byte);
    [b'%', high, low]
}

/// The bytes without those at their end that are this one.
pub(crate) fn without_end(bytes: &[u8], last: u8) -> &[u8]
    ensures { result.now ≡ without_end last bytes.now }
{
    let mut count = bytes.len();
    while count > 0 && bytes[count - 1] == last {
        count -= 1;
    }
    &bytes[..count]
}
