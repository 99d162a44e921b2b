// The codes that are their own characters. Runs of them are taken and shown in one go, since most texts are such runs.
ghost use Rattle.std.specs.Prelude.{◌≡◌};
ghost use Rattle.apple_text.specs.Reading.{is_plain};

pub fn is_plain(code: u8) -> bool
    ensures { result ≡ is_plain code }
{
    matches!(code, 0x20..=0x7e)
}
