// A row of a laid text.
ghost use Rattle.std.specs.Prelude.{◌≡◌, ◌≤◌};
ghost use Rattle.page.specs.Rows.{following};
ghost use Rattle.page.specs.Texts.{most_characters};

use crate::ending::Ending;

// The part [start, end) of the text, the width that it needs, and how far one has to read the text
// to break it: what stands at `reach` or later has no bearing on this row.
#[derive(Clone, Copy, Debug, PartialEq, Eq)]
pub struct Row {
    pub start: usize,
    pub end: usize,
    pub ending: Ending,
    pub width: u32,
    pub reach: usize,
}

impl Row {
    // Where the next row starts; none comes after the end of the text.
    pub fn next_start(&self) -> Option<usize>
        ensures { self.now.end ≤ most_characters → result ≡ following self.now }
    {
        match self.ending {
            Ending::Wrapped | Ending::Cut => Some(self.end),
            Ending::Newline => self.end.checked_add(1),
            Ending::End => None,
        }
    }
}
