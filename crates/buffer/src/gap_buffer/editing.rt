// Edits of the text in a gap buffer.
ghost use Rattle.std.specs.Prelude.{◌≡◌, ◌+◌, ◌-◌, ◌≤◌, [], length, IfOk};
ghost use Rattle.page.specs.Texts.{edited, most_characters};
ghost use Rattle.buffer.specs.Gaps.{around};
ghost use Rattle.buffer.specs.Held.{held};

use super::GapBuffer;
use page::text::MAX_CHARACTERS;
use std::alloc::{AllocError, Global};

impl GapBuffer {
    pub fn new(heap: Global) -> Result<GapBuffer, AllocError>
        ensures { IfOk result (λ g. held g ≡ []) }
    {
        let bytes = vec![in heap; 0; MAX_CHARACTERS]?;
        Ok(GapBuffer {
            bytes,
            gap_start: 0,
            gap_end: MAX_CHARACTERS,
        })
    }

    // Puts `ins` in place of the `del` characters at `at`.
    pub fn replace(&mut self, at: usize, del: usize, ins: &[u8])
        requires within { at + del ≤ length (held self.old) }
        requires room { length (held self.old) - del + length ins.now ≤ most_characters }
        ensures { held self.new ≡ edited (held self.old) at del ins.now }
    {
        let end = move_gap(&mut self.bytes, self.gap_start, self.gap_end, at);
        let start = at + ins.len();
        self.bytes[at..start].copy_from_slice(ins);
        self.gap_start = start;
        self.gap_end = end + del;
    }
}

// Moves the gap [start, end) to `at`, and answers where it then ends.
fn move_gap(bytes: &mut Vec<u8>, start: usize, end: usize, at: usize) -> usize
    requires forward { start ≤ end }
    requires within { at + (end - start) ≤ length bytes.old.items }
    requires gap { end ≤ length bytes.old.items }
    ensures same { around bytes.new.items at result ≡ around bytes.old.items start end }
    ensures wide { result ≡ at + (end - start) }
    ensures full { length bytes.new.items ≡ length bytes.old.items }
{
    let moved = at + (end - start);
    if at < start {
        bytes.copy_within(at..start, moved);
    } else {
        bytes.copy_within(end..moved, start);
    }
    moved
}
