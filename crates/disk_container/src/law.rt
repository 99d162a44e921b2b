// What always holds of containers.
ghost use Rattle.std.specs.Prelude.{ℕ, Bool, List, Option};
ghost use Rattle.disk_container.specs.declared.container.Container.{Container};
ghost use Rattle.disk_container.specs.declared.error.ContainerFault.{ContainerFault};
ghost use Rattle.a2_device.specs.declared.order.Order.{Order};
ghost use Rattle.disk_container.specs.Laws.{AreOne, CanBePut, IsInParts, IsOnlyFault, IsUnwrapped};

/// A file is one container at most.
pub fn a_file_is_one_container()
    ensures { (bytes : List ℕ) (container other : Container) → AreOne bytes container other }
{}

/// A file with a fault is no container, and has no other fault.
pub fn a_file_has_one_fault()
    ensures { (bytes : List ℕ) (fault : ContainerFault) → IsOnlyFault bytes fault }
{}

/// A container is what stands in front of its payload, the payload, and what stands behind it.
pub fn a_container_is_its_parts()
    ensures { (bytes : List ℕ) (container : Container) → IsInParts bytes container }
{}

/// Another payload of the same length may be put into a container, and all else that it says stays.
pub fn a_payload_can_be_put()
    ensures { (front payload back other : List ℕ) (container : Container)
        → CanBePut front payload back other container }
{}

/// What is wrapped is a container that says what it was made of.
pub fn what_is_wrapped_is_unwrapped()
    ensures { (order : Order) (volume : Option ℕ) (comment : List ℕ) (protect : Bool) (payload : List ℕ)
        → IsUnwrapped order volume comment protect payload }
{}
