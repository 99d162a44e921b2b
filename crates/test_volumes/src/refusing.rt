// An allocator for tests: it passes each call on to another one, but refuses some of the blocks
// that are asked of it.
ghost use Rattle.std.specs.Prelude.{◌≡◌, ℕ, ◌<◌, ◌≤◌, ◌↔◌};

use crate::rule::Rule;
use std::alloc::{AllocError, Allocator};

/// A handle that refuses some of the blocks that are asked of it, and has the others from `inner`,
/// to which they go back. It numbers the blocks that are asked from 0, in the order in which they
/// are asked, and counts them; a block that is to grow is asked anew. Which numbers it refuses is
/// fixed when it is made. Lend it: `&heap` is the handle to hand in.
#[derive(Drop)]
pub struct Refusing<B> {
    inner: B,
    rule: Rule,
}

impl<B> Refusing<B> {
    ghost use Rattle.test_volumes.specs.Refused.{IsRefused, inner_of};

    /// Refuses no block.
    pub fn none(inner: B) -> Refusing<B>
        ensures inner { inner_of result ≡ inner }
        ensures refused { (number : ℕ) → IsRefused result number → ⊥ }
    {
        Refusing {
            inner,
            rule: Rule::new(0, 0),
        }
    }

    /// Refuses the block that comes after `before` others, and no other.
    pub fn one(inner: B, before: u64) -> Refusing<B>
        ensures inner { inner_of result ≡ inner }
        ensures refused { (number : ℕ) → number < 18446744073709551615
            → IsRefused result number ↔ (number ≡ before) }
    {
        Refusing {
            inner,
            rule: Rule::new(before, before.saturating_add(1)),
        }
    }

    /// Refuses each block after the first `before`.
    pub fn all_after(inner: B, before: u64) -> Refusing<B>
        ensures inner { inner_of result ≡ inner }
        ensures refused { (number : ℕ) → number < 18446744073709551615
            → IsRefused result number ↔ (before ≤ number) }
    {
        Refusing {
            inner,
            rule: Rule::new(before, u64::MAX),
        }
    }

    /// How many blocks were asked, those that were refused too.
    pub fn asked(&self) -> u64 {
        self.rule.asked()
    }
}

unsafe impl<B: Allocator> Allocator for Refusing<B> {
    ghost dealloc_token = { λ heap ty ptr. B.dealloc_token heap.inner ty ptr };

    fn allocate(&self, size: usize, align: usize) -> Result<*mut u8, AllocError> {
        if self.rule.refuses_next() {
            return Err(AllocError);
        }
        self.inner.allocate(size, align)
    }

    unsafe fn deallocate(&self, ptr: *mut u8, size: usize, align: usize) {
        self.inner.deallocate(ptr, size, align);
    }
}
