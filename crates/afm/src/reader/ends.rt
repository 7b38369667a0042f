// Where a reader begins, and how far it is.
ghost use Rattle.std.specs.Prelude.{◌≡◌, ◌≤◌, length};
ghost use Rattle.afm.specs.Reading.{is_ended, start};
ghost use Rattle.afm.specs.Steps.{place, standing};

use super::Reader;
use crate::section::Section;

impl<'a> Reader<'a> {
    pub(crate) fn new(file: &'a [u8]) -> Reader<'a>
        ensures place { place result ≡ record { file = file.entry.now; at = 0; line = 0 } }
        ensures standing { standing result ≡ start }
    {
        Reader {
            file,
            at: 0,
            line: 0,
            section: Section::Start,
            announced: 0,
            seen: 0,
        }
    }

    pub(crate) fn has_ended(&self) -> bool
        ensures { result ≡ is_ended self.now.section }
    {
        matches!(self.section, Section::Ended)
    }

    pub(crate) fn lines_read(&self) -> usize
        ensures value { result ≡ self.now.line }
        ensures bound { result ≤ length self.now.file.now }
    {
        self.line
    }
}
