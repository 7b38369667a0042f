// A text as it would be after an edit.
ghost use Rattle.std.specs.Prelude.{◌≡◌, ◌+◌, ◌-◌, ◌≤◌, length};
ghost use Rattle.page.specs.Texts.{edited, most_characters};
ghost use Rattle.buffer.specs.Held.{held};

use crate::gap_buffer::GapBuffer;
use page::text::Characters;

// `text` with `ins` in place of the `del` characters at `at`.
#[derive(Clone, Copy)]
pub struct EditedText<'a> {
    text: &'a GapBuffer,
    at: usize,
    del: usize,
    ins: &'a [u8],
    ghost within: { at + del ≤ length (held text.now) },
    ghost few: { length (held text.now) - del + length ins.now ≤ most_characters },
}

impl<'a> EditedText<'a> {
    pub fn new(text: &'a GapBuffer, at: usize, del: usize, ins: &'a [u8]) -> EditedText<'a>
        requires within { at + del ≤ length (held text.now) }
        requires few { length (held text.now) - del + length ins.now ≤ most_characters }
        ensures { edited (held result.text.now) result.at result.del result.ins.now ≡ edited (held text.now) at del ins.now }
    {
        EditedText { text, at, del, ins }
    }
}

impl Characters for EditedText<'_> {
    ghost chars = { λ e. edited (held e.text.now) e.at e.del e.ins.now };

    fn len(&self) -> usize {
        self.text.len() - self.del + self.ins.len()
    }

    fn get(&self, at: usize) -> Option<u8> {
        if at < self.at {
            self.text.get(at)
        } else if at < self.at + self.ins.len() {
            Some(self.ins[at - self.at])
        } else {
            // a place that is no number of the machine's lies behind every text
            self.text
                .get((at - self.ins.len()).saturating_add(self.del))
        }
    }
}
