// A short list in fixed memory.
ghost use Rattle.std.specs.Prelude.{◌≡◌, ◌≤◌, ⊤};

use std::alloc::AllocError;

/// Up to `N` items: the first `count` of the array are in the list. It is Copy, as a plan is; the library's `ArrayVec` is not.
#[derive(Drop)]
pub struct FixedList<T, const N: usize> {
    items: [T; N],
    count: usize,
    ghost fits: { count ≤ N },
}

impl<T: Copy, const N: usize> FixedList<T, N> {
    ghost use Rattle.std.specs.Prelude.{◌<◌, [], ◌∷◌, ◌++◌, length};
    ghost use Rattle.plan.specs.View.{listed};

    /// An empty list.
    pub fn new() -> Self
    where
        T: Default,
        ensures { listed result ≡ [] }
    {
        FixedList {
            items: [T::default(); N],
            count: 0,
        }
    }

    /// Puts the item at the end.
    pub fn push(&mut self, item: T)
        requires { length (listed self.old) < N }
        ensures { listed self.new ≡ listed self.old ++ item ∷ [] }
    {
        self.items[self.count] = item;
        self.count += 1;
    }

    /// How many items there are.
    pub fn len(&self) -> usize
        ensures value { result ≡ length (listed self.now) }
        ensures fits { result ≤ N }
    {
        self.as_slice().len()
    }

    /// The items.
    pub fn as_slice(&self) -> &[T]
        ensures { result.now ≡ listed self.now }
    {
        &self.items[..self.count]
    }
}

impl<T: Copy, const N: usize> Copy for FixedList<T, N> {}

// Written by hand: for a generic struct with a ghost field the derives are refused.
impl<T: Copy, const N: usize> Clone for FixedList<T, N> {
    ghost is_clone = { λ x y. y ≡ x };

    ghost is_infallible = { λ _. ⊤ };

    fn clone(&self) -> Result<Self, AllocError> {
        Ok(*self)
    }
}
