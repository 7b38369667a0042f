// The characters of a gap buffer.
ghost use Rattle.std.specs.Prelude.{◌≡◌, ◌-◌, ◌<◌, ◌≤◌, ◌++◌, length, drop, slice_index};
ghost use Rattle.page.specs.Texts.{part};
ghost use Rattle.buffer.specs.Held.{held};

use super::GapBuffer;
use page::text::Characters;

impl GapBuffer {
    // The character at a place that the text has.
    fn char_at(&self, place: usize) -> u8
        requires { place < length (held self.now) }
        ensures { result ≡ slice_index (held self.now) place }
    {
        if place < self.gap_start {
            self.bytes[place]
        } else {
            self.bytes[place + (self.gap_end - self.gap_start)]
        }
    }

    // Copies the characters of [start, end) to the front of `out`.
    pub fn copy_to(&self, start: usize, end: usize, out: &mut [u8])
        requires forward { start ≤ end }
        requires within { end ≤ length (held self.now) }
        requires room { end - start ≤ length out.old }
        ensures { out.new ≡ part (held self.now) start end ++ drop (end - start) out.old }
    {
        let gap = self.gap_end - self.gap_start;
        let middle = self.gap_start.clamp(start, end);
        out[..middle - start].copy_from_slice(&self.bytes[start..middle]);
        out[middle - start..end - start].copy_from_slice(&self.bytes[middle + gap..end + gap]);
    }
}

impl Characters for GapBuffer {
    ghost chars = { held };

    fn len(&self) -> usize {
        self.bytes.len() - (self.gap_end - self.gap_start)
    }

    fn get(&self, at: usize) -> Option<u8> {
        (at < self.len()).then(|| self.char_at(at))
    }
}
