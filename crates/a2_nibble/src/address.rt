ghost use Rattle.std.specs.Prelude.{◌≡◌, ℕ, ◌+◌, ◌<◌, ◌↔◌, List, All};
ghost use Rattle.a2_nibble.specs.Address.{address_field, number_of, DecodesTo};
ghost use Rattle.a2_nibble.specs.Address.{odd_bits as odd_bits_of, even_bits as even_bits_of};
ghost use Rattle.a2_nibble.specs.Track.{nibble_at};

use crate::TRACK_LEN;
use crate::ring::byte_at;

/// The bytes of an address field without its epilogue, which does not matter.
pub const ADDRESS_LEN: usize = 11;

/// An address field without its epilogue: the mark, and each number in 4-and-4.
#[tactic(auto, unfolding(crate::specs::Address::address_field))]
pub fn address_of(volume: u8, track: u8, sector: u8) -> [u8; ADDRESS_LEN]
    ensures { result ≡ address_field volume track sector }
{
    let checksum = volume ^ track ^ sector;
    [
        0xD5,
        0xAA,
        0x96,
        odd_bits(volume),
        even_bits(volume),
        odd_bits(track),
        even_bits(track),
        odd_bits(sector),
        even_bits(sector),
        odd_bits(checksum),
        even_bits(checksum),
    ]
}

fn odd_bits(number: u8) -> u8
    ensures { result ≡ odd_bits_of number }
{
    number / 2 | 0xAA
}

fn even_bits(number: u8) -> u8
    ensures { result ≡ even_bits_of number }
{
    number | 0xAA
}

/// The number in 4-and-4 at a place, if one stands there.
pub fn number_at(nibbles: &[u8; TRACK_LEN], place: usize) -> u8
    requires { place < 7000 }
    ensures { result ≡ number_of (nibble_at nibbles.now place) (nibble_at nibbles.now (place + 1)) }
{
    (byte_at(nibbles, place) & 0x55) * 2 + (byte_at(nibbles, place + 1) & 0x55)
}

/// A law: eleven bytes are an address field exactly where a reader decodes them so.
pub fn address_field_decodes()
    ensures { (bytes : List ℕ) (volume track sector : ℕ)
        → All (λ byte. byte < 256) bytes → volume < 256 → track < 256 → sector < 256
        → (bytes ≡ address_field volume track sector) ↔ DecodesTo bytes volume track sector }
{}
