//! New folders where memory is refused: each block in turn.

use crate::files::new_folders::{are_first, fill};
use host_folders::{FolderFailure, MemoryFolder};
use test_volumes::Refusing;

#[test]
fn without_memory_nothing_more_is_made_in_memory(rt: HostRuntime) {
    let whole = Refusing::none(rt.alloc());
    {
        let mut folder = MemoryFolder::new(&whole);
        assert!(rt; fill(&mut folder).is_ok());
        assert!(rt; are_first(folder.items(), 5));
    }
    for before in 0..whole.asked() {
        let heap = Refusing::one(rt.alloc(), before);
        let mut folder = MemoryFolder::new(&heap);
        assert!(rt; fill(&mut folder) == Err(FolderFailure::Memory), "{before}");
        let count = folder.items().len();
        assert!(rt; count < 5 && are_first(folder.items(), count), "{before}");
        assert_eq!(rt; heap.asked(), before + 1);
    }
}
