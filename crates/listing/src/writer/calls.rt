// The calls of a list writer. `lender` says that it still writes to the buffer it was lent.
ghost use Rattle.std.specs.Prelude.{◌≡◌, [], length};
ghost use Rattle.listing.specs.Entries.{outcome, entered};
ghost use Rattle.listing.specs.Writers.{written, room};

use super::ListWriter;
use crate::place::Place;
use crate::room::NoRoom;
use crate::word::Word;

impl<'b> ListWriter<'b> {
    pub fn new(buffer: &'b mut [u8]) -> ListWriter<'b>
        ensures lender { result.buffer.ghost_name ≡ buffer.entry.ghost_name }
        ensures same { result.buffer.now ≡ buffer.old }
        ensures value { written result ≡ [] }
    {
        ListWriter {
            buffer,
            place: Place::default(),
        }
    }

    // Refused only where the buffer has no room for all of the entry; the list is then as it was.
    pub fn entry(&mut self, words: &[Word]) -> Result<(), NoRoom>
        ensures lender { self.new.buffer.ghost_name ≡ self.old.buffer.ghost_name }
        ensures room { room self.new ≡ room self.old }
        ensures after { outcome (written self.new) result ≡ entered (room self.old) (written self.old) words.now }
    {
        self.place.enter(self.buffer, words)
    }

    pub fn len(&self) -> usize
        ensures { result ≡ length (written self.now) }
    {
        self.place.at
    }

    pub fn written(&self) -> &[u8]
        ensures { result.now ≡ written self.now }
    {
        &self.buffer[0..self.place.at]
    }
}
