ghost use Rattle.std.specs.Prelude.{◌≡◌, ◌≤◌, ⊤, length};

mod items;

use std::alloc::AllocError;

// At most N items, in the order in which they were pushed: the first `count` of the array. The kit's list of fixed room cannot be copied, and
// what holds these can be.
pub struct ShortList<T, const N: usize> {
    items: [T; N],
    count: usize,
    ghost whole: { length items ≡ N },
    ghost room: { count ≤ N },
}

// By hand: `#[derive(Clone, Copy)]` on a generic struct with a ghost field is refused (`derive-over-ghost-field`).
impl<T: Copy, const N: usize> Clone for ShortList<T, N> {
    ghost is_clone = { λ list copy. copy ≡ list };

    ghost is_infallible = { λ _. ⊤ };

    fn clone(&self) -> Result<ShortList<T, N>, AllocError> {
        Ok(*self)
    }
}

impl<T: Copy, const N: usize> Copy for ShortList<T, N> {}

// There is no room for an item more.
#[derive(Clone, Copy, PartialEq, Eq, Debug)]
pub struct Full;
