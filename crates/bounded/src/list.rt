// A list of at most so many items.
ghost use Rattle.std.specs.Prelude.{◌≡◌, ◌≤◌, length, Some, codes};

use std::alloc::AllocError;
use std::error::Error;
use std::fmt;

pub mod calls;
pub mod getters;

// There is no room for one item more.
#[derive(Clone, Copy, Debug, PartialEq, Eq)]
pub struct Full;

impl fmt::Display for Full {
    ghost output = { λ _. Some (codes "the list is full") };

    fn fmt<W: fmt::Write>(&self, f: &mut fmt::Formatter<W>) -> fmt::Result {
        f.write_str("the list is full")
    }
}

impl Error for Full {}

// At most N items, the newest last. They stand in the first entries of the table.
pub struct BoundedList<T, const N: usize> {
    entries: [T; N],
    count: usize,
    ghost few: { count ≤ N },
    ghost sized: { length entries ≡ N },
}

// By hand, since neither is derived for a generic struct with ghost fields.
impl<T: Copy, const N: usize> Copy for BoundedList<T, N> {}

impl<T: Copy, const N: usize> Clone for BoundedList<T, N> {
    ghost is_clone = { λ x y. y ≡ x };

    ghost is_infallible = { λ _. Unit {0} };

    fn clone(&self) -> Result<BoundedList<T, N>, AllocError> {
        Ok(*self)
    }
}
