// How a list is made and read.
ghost use Rattle.std.specs.Prelude.{◌≡◌, ◌≤◌, [], ◌↔◌, length, true};
ghost use Rattle.bounded.specs.Items.{items};

use crate::list::BoundedList;

impl<T: Copy, const N: usize> BoundedList<T, N> {
    // No items; the entries of the table are copies of a blank.
    pub fn new(blank: T) -> BoundedList<T, N>
        ensures { items result ≡ [] }
    {
        BoundedList {
            entries: [blank; N],
            count: 0,
        }
    }

    pub fn len(&self) -> usize
        ensures value { result ≡ length (items self.now) }
        ensures most { result ≤ N }
    {
        self.count
    }

    // Whether there is no room for one item more.
    pub fn is_full(&self) -> bool
        ensures { (result ≡ true) ↔ (length (items self.now) ≡ N) }
    {
        self.len() == N
    }

    pub fn as_slice(&self) -> &[T]
        ensures { result.now ≡ items self.now }
    {
        &self.entries[..self.count]
    }
}
