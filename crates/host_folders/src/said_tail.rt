// What the tail of a file's name says.
ghost use Rattle.std.specs.Prelude.{◌≡◌, ◌↔◌, ◌⊎◌, ℕ, [], IfSome, IfNone, IsTrue, codes};
ghost use Rattle.std.specs.List.{list_all};
ghost use Rattle.std.specs.Char.{is_ascii_alphanumeric};
ghost use Rattle.host_folders.specs.declared.said.Content.{Content};
ghost use Rattle.host_folders.specs.HostEntries.{IsExtension, SaysContent, SaysTail};
ghost use Rattle.host_folders.specs.Reading.{IsShortWord, IsTail};

use crate::digits::first_number;
use crate::said::Content;

/// The type and the aux type of a file, and what its bytes are.
#[derive(Clone, Copy)]
pub(crate) struct Tail {
    pub file_type: u8,
    pub aux_type: u16,
    pub content: Content,
}

// Whether all of a text are letters and digits.
fn is_alphanumeric(text: &[u8]) -> bool
    ensures { result ≡ list_all is_ascii_alphanumeric text.now }
{
    text.iter().all(|c| c.is_ascii_alphanumeric())
}

// Whether a text is one to three letters or digits.
fn is_short_word(text: &[u8]) -> bool
    ensures { IsTrue result ↔ IsShortWord text.now }
{
    !text.is_empty() && text.len() <= 3 && is_alphanumeric(text)
}

// Whether nothing stands behind the digits, or an extension.
fn is_passed_over(end: &[u8]) -> bool
    ensures { IsTrue result ↔ ((end.now ≡ []) ⊎ IsExtension end.now) }
{
    match end {
        [] => true,
        [b'.', letters @ ..] => is_short_word(letters),
        _ => false,
    }
}

// What a text in UTF-8 is that stands for a file of a type.
fn readable_content(file_type: u8) -> Option<Content>
    ensures some { IfSome result (λ content. SaysContent (codes ".utf8.txt") file_type content) }
    ensures none { IfNone result ((content : Content) → ¬ SaysContent (codes ".utf8.txt") file_type content) }
{
    match file_type {
        0x04 => Some(Content::Text),
        0xfc => Some(Content::Program),
        _ => None,
    }
}

// What the bytes of a file are, by what stands behind its type and aux type.
fn content_of(end: &[u8], file_type: u8) -> Option<Content>
    ensures some { IfSome result (λ content. SaysContent end.now file_type content) }
    ensures none { IfNone result ((content : Content) → ¬ SaysContent end.now file_type content) }
{
    if end == ".utf8.txt".as_bytes() {
        readable_content(file_type)
    } else if is_passed_over(end) {
        Some(Content::Bytes)
    } else {
        None
    }
}

impl Tail {
    /// What a tail says.
    pub(crate) fn read(text: &[u8]) -> Option<Self>
        ensures some { IfSome result (λ tail. IsTail text.now tail) }
        ensures none { IfNone result ((type aux : ℕ) (content : Content) → ¬ SaysTail text.now type aux content) }
    {
        let (file_type, rest) = first_number(text)?;
        let (high, rest) = first_number(rest)?;
        let (low, end) = first_number(rest)?;
        let content = content_of(end, file_type)?;
        Some(Tail {
            file_type,
            aux_type: u16::from_be_bytes([high, low]),
            content,
        })
    }
}
