// What is at a place of a volume.
ghost use Rattle.std.specs.Prelude.{◌≡◌, ◌<◌};
ghost use Rattle.shop_reads.specs.MapText.{character_of};

/// What is at a place of a volume.
#[derive(Clone, Copy)]
pub enum PlaceState {
    /// The system's, whatever is reserved.
    System,
    /// The system's, since it is reserved.
    Reserved,
    /// A part that stands at its target.
    InOrder,
    /// A part that stands elsewhere.
    Elsewhere,
    /// Nothing, and it is marked used.
    Lost,
    /// Nothing, and it is marked free.
    Free,
}

impl PlaceState {
    /// The character that tells it in a map.
    pub fn character(self) -> char
        ensures value { result ≡ character_of self }
        ensures ascii { result < 128 }
    {
        match self {
            PlaceState::System => 'S',
            PlaceState::Reserved => 'R',
            PlaceState::InOrder => 'o',
            PlaceState::Elsewhere => 'x',
            PlaceState::Lost => '?',
            PlaceState::Free => '.',
        }
    }
}
