// What is read beside an image.
ghost use Rattle.std.specs.Prelude.{◌≡◌};
ghost use Rattle.shop_reads.specs.Extra.{extra_view, given_bytes};

use a2_device::Order;

/// The bytes of what a look reads beside its image.
#[derive(Drop)]
pub enum Extra {
    /// Those of a file; of none where the look reads none.
    File(Vec<u8>),
    /// Those of another image, in its order.
    Image { bytes: Vec<u8>, order: Order },
}

impl Extra {
    // The bytes of the file; an image is none.
    pub(crate) fn file(&self) -> &[u8]
        ensures { result.now ≡ given_bytes (extra_view self.now) }
    {
        match self {
            Extra::File(bytes) => bytes.as_slice(),
            Extra::Image { .. } => &[],
        }
    }
}
