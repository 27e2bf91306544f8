// How a list grows and shrinks.
ghost use Rattle.std.specs.Prelude.{◌≡◌, ◌<◌, [], ◌∷◌, ◌++◌, ◌↔◌, length, true, is_ok, OnOk, OnErr, IfSome, IfNone};
ghost use Rattle.bounded.specs.Items.{items};

use crate::list::{BoundedList, Full};

impl<T: Copy, const N: usize> BoundedList<T, N> {
    // Puts an item at the end, where there is room.
    pub fn push(&mut self, item: T) -> Result<(), Full>
        ensures accepted { (is_ok result ≡ true) ↔ (length (items self.old) < N) }
        ensures pushed { OnOk result (items self.new ≡ items self.old ++ (item ∷ [])) }
        ensures kept { OnErr result (self.new ≡ self.old) }
    {
        if self.is_full() {
            return Err(Full);
        }
        self.entries[self.count] = item;
        self.count += 1;
        Ok(())
    }

    // Takes the last item off.
    pub fn pop(&mut self) -> Option<T>
        ensures popped { IfSome result (λ x. items self.old ≡ items self.new ++ (x ∷ [])) }
        ensures none { IfNone result (items self.old ≡ []) }
        ensures kept { IfNone result (self.new ≡ self.old) }
    {
        let last = *self.as_slice().last()?;
        self.count -= 1;
        Some(last)
    }

    pub fn clear(&mut self)
        ensures { items self.new ≡ [] }
    {
        self.count = 0;
    }
}
