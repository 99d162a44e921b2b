// Which faults are known of each place, so that none is told twice.
ghost use Rattle.std.specs.Prelude.{◌≡◌};
ghost use Rattle.vol_check.specs.Known.{
  has_fault,
  is_known as is_in,
  knowing,
  none_known,
  place_of as place_in,
  with_fault,
};

use a2_device::Fault;

/// Which of the faults that many pointers can meet were told of a place.
#[derive(Clone, Copy)]
pub struct Known {
    pub storage_type: bool,
    pub out_of_range: bool,
    pub in_system: bool,
    pub shared: bool,
}

impl Known {
    /// Nothing is known of a place.
    pub fn nothing() -> Self
        ensures { result ≡ none_known }
    {
        Known {
            storage_type: false,
            out_of_range: false,
            in_system: false,
            shared: false,
        }
    }

    // Whether a fault of its kind is known.
    fn has(self, fault: Fault) -> bool
        ensures { result ≡ has_fault self fault }
    {
        match fault {
            Fault::StorageType(_) => self.storage_type,
            Fault::OutOfRange(_) => self.out_of_range,
            Fault::InSystem(_) => self.in_system,
            Fault::Shared(_) => self.shared,
            _ => false,
        }
    }

    // With a fault of its kind.
    fn with(mut self, fault: Fault) -> Self
        ensures { result ≡ with_fault self fault }
    {
        match fault {
            Fault::StorageType(_) => self.storage_type = true,
            Fault::OutOfRange(_) => self.out_of_range = true,
            Fault::InSystem(_) => self.in_system = true,
            Fault::Shared(_) => self.shared = true,
            _ => {}
        }
        self
    }
}

/// The place of a fault.
pub fn place_of(fault: Fault) -> u32
    ensures { result ≡ place_in fault }
{
    match fault {
        Fault::Geometry(place) => place,
        Fault::CatalogLink(place) => place,
        Fault::DirLink(place) => place,
        Fault::MapPointer(place) => place,
        Fault::StorageType(place) => place,
        Fault::OutOfRange(place) => place,
        Fault::InSystem(place) => place,
        Fault::Shared(place) => place,
        Fault::MarkedFree(place) => place,
    }
}

/// Whether a fault is known.
pub fn is_known(known: &[Known], fault: Fault) -> bool
    ensures { result ≡ is_in known.now fault }
{
    let place = place_of(fault) as usize;
    place < known.len() && known[place].has(fault)
}

/// Notes that a fault is known.
pub fn note_known(known: &mut [Known], fault: Fault)
    ensures { known.new ≡ knowing known.old fault }
{
    let place = place_of(fault) as usize;
    if place < known.len() {
        known[place] = known[place].with(fault);
    }
}
