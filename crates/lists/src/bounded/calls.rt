// The calls of a bounded list. `lender` says that the list still writes to the slots it was lent.
ghost use Rattle.std.specs.Prelude.{◌≡◌};
ghost use Rattle.lists.specs.Holding.{holding, empty, entries, pushed, push_answer};

use super::BoundedList;
use crate::full::Full;

impl<'a, T: Copy> BoundedList<'a, T> {
    pub fn new(slots: &'a mut [T]) -> BoundedList<'a, T>
        ensures lender { result.slots.ghost_name ≡ slots.entry.ghost_name }
        ensures value { holding result ≡ empty slots.old }
    {
        BoundedList { slots, used: 0 }
    }

    pub fn len(&self) -> usize
        ensures { result ≡ (holding self.now).used }
    {
        self.used
    }

    pub fn as_slice(&self) -> &[T]
        ensures { result.now ≡ entries (holding self.now) }
    {
        &self.slots[..self.used]
    }

    // Refused only when all slots are used; the list is then as it was.
    pub fn push(&mut self, entry: T) -> Result<(), Full>
        ensures lender { self.new.slots.ghost_name ≡ self.old.slots.ghost_name }
        ensures after { holding self.new ≡ pushed (holding self.old) entry }
        ensures answer { result ≡ push_answer (holding self.old) }
    {
        // no `get_mut`: nothing is proved of the elements of a slice that is written through it
        if self.used == self.slots.len() {
            return Err(Full);
        }
        self.slots[self.used] = entry;
        self.used += 1;
        Ok(())
    }
}
