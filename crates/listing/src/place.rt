// The place that a list is written up to, and the guard that keeps it while an entry is open.
ghost use Rattle.std.specs.Prelude.{◌≡◌, ◌≤◌, true, length, Some, None};
ghost use Rattle.std.specs.Option.{unwrap_or};
ghost use Rattle.listing.specs.Entries.{word_bytes, outcome, added, entered};
ghost use Rattle.listing.specs.Places.{front, Kept};

use crate::room::NoRoom;
use crate::word::Word;
use numerals::decimal::Decimal;

// How far a list is written.
#[derive(Default, Drop)]
pub(crate) struct Place {
    pub(crate) at: usize,
}

impl Place {
    // The words as an entry. Where it does not fit, the place stays.
    pub(crate) fn enter(&mut self, buffer: &mut [u8], words: &[Word]) -> Result<(), NoRoom>
        requires { self.old.at ≤ length buffer.old }
        ensures within { self.new.at ≤ length buffer.new }
        ensures after { outcome (front self.new buffer.new) result ≡ entered (length buffer.old) (front self.old buffer.old) words.now }
    {
        let mut guard = Guard::new(self);
        for (i, word) in words.iter().enumerate() {
            if i > 0 {
                guard.put(buffer, b" ")?;
            }
            guard.put_word(buffer, *word)?;
        }
        guard.put(buffer, b"\n")?;
        guard.close();
        Ok(())
    }
}

// Takes an entry that is not closed back to where it began.
struct Guard<'a> {
    place: &'a mut Place,
    // where the entry began, as long as it is open
    began: Option<usize>,
}

impl Drop for Guard<'_> {
    fn drop(self)
        ensures { self.exit.0.now.at ≡ unwrap_or self.entry.began self.entry.place.now.at }
    {
        let Guard { place, began } = self;
        if let Some(start) = began {
            place.at = start;
        }
    }
}

impl<'a> Guard<'a> {
    fn new(place: &'a mut Place) -> Guard<'a>
        ensures lender { result.place.ghost_name ≡ place.entry.ghost_name }
        ensures same { result.place.now ≡ place.old }
        ensures open { result.began ≡ Some place.old.at }
    {
        let began = Some(place.at);
        Guard { place, began }
    }

    // All the bytes, or none of them where they do not fit.
    fn put(&mut self, buffer: &mut [u8], bytes: &[u8]) -> Result<(), NoRoom>
        requires { self.old.place.now.at ≤ length buffer.old }
        ensures kept { Kept self.old self.new }
        ensures within { self.new.place.now.at ≤ length buffer.new }
        ensures after { outcome (front self.new.place.now buffer.new) result ≡ added (length buffer.old) (front self.old.place.now buffer.old) bytes.now }
    {
        let at = self.place.at;
        if bytes.len() > buffer.len() - at {
            return Err(NoRoom);
        }
        let end = at + bytes.len();
        buffer[at..end].copy_from_slice(bytes);
        self.place.at = end;
        Ok(())
    }

    fn put_word(&mut self, buffer: &mut [u8], word: Word) -> Result<(), NoRoom>
        requires { self.old.place.now.at ≤ length buffer.old }
        ensures kept { Kept self.old self.new }
        ensures within { self.new.place.now.at ≤ length buffer.new }
        ensures after { outcome (front self.new.place.now buffer.new) result ≡ added (length buffer.old) (front self.old.place.now buffer.old) (word_bytes word) }
    {
        match word {
            Word::Number(n) => self.put(buffer, Decimal::new(n).as_bytes()),
            Word::Letter(c) => self.put(buffer, c.encode_utf8(&mut [0; 4]).as_bytes()),
        }
    }

    // The entry stays.
    fn close(&mut self)
        ensures lender { self.new.place.ghost_name ≡ self.old.place.ghost_name }
        ensures same { self.new.place.now ≡ self.old.place.now }
        ensures closed { self.new.began ≡ None }
    {
        self.began = None;
    }
}
