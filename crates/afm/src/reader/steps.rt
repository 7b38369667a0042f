// What a line does. A refused line leaves the reader's count and section, and both lists, as they were.
ghost use Rattle.std.specs.Prelude.{◌≡◌, ◌<◌};
ghost use Rattle.lists.specs.Holding.{holding};
ghost use Rattle.afm.specs.Parts.{line as part};
ghost use Rattle.afm.specs.Steps.{after, answer, act, line_step, place, progress, standing, see_after, open_section, close_section, take_glyph, take_pair, kept};

use super::Reader;
use crate::fault::LineFault;
use crate::field::count_of;
use crate::part::Line;
use crate::section::{Role, Section};
use lists::bounded::BoundedList;
use metrics::entry::{Glyph, KernPair};

impl<'a> Reader<'a> {
    // The count of entry lines stands after the first word.
    #[tactic(auto, unfolding(crate::specs::Steps::open_section))]
    fn open(&mut self, section: Section, mut line: Line<'a>) -> Result<(), LineFault>
        ensures place { place self.new ≡ place self.old }
        ensures after { standing self.new ≡ after (standing self.old) (open_section section (part line.entry)) }
        ensures answer { result ≡ answer (open_section section (part line.entry)) }
    {
        let count = count_of(line.next_word().text).ok_or(LineFault::Field)?;
        self.section = section;
        self.announced = count;
        self.seen = 0;
        Ok(())
    }

    fn close(&mut self, section: Section) -> Result<(), LineFault>
        ensures place { place self.new ≡ place self.old }
        ensures after { standing self.new ≡ after (standing self.old) (close_section section (standing self.old)) }
        ensures answer { result ≡ answer (close_section section (standing self.old)) }
    {
        if self.seen != self.announced {
            return Err(LineFault::Count);
        }
        self.section = section;
        Ok(())
    }

    fn take_glyph(
        &mut self,
        line: Line<'a>,
        glyphs: &mut BoundedList<'_, Glyph>,
    ) -> Result<(), LineFault>
        requires { self.old.seen < self.old.line }
        ensures lender { glyphs.new.slots.ghost_name ≡ glyphs.old.slots.ghost_name }
        ensures place { place self.new ≡ place self.old }
        ensures standing { standing self.new ≡ see_after (standing self.old) (take_glyph self.old.file.now (holding glyphs.old) (part line.entry)) }
        ensures after { holding glyphs.new ≡ after (holding glyphs.old) (take_glyph self.old.file.now (holding glyphs.old) (part line.entry)) }
        ensures answer { result ≡ answer (take_glyph self.old.file.now (holding glyphs.old) (part line.entry)) }
    {
        let glyph = self.new_glyph(line, glyphs.as_slice())?;
        self.keep(glyphs, Some(glyph))
    }

    fn take_pair(
        &mut self,
        line: Line<'a>,
        glyphs: &[Glyph],
        kerns: &mut BoundedList<'_, KernPair>,
    ) -> Result<(), LineFault>
        requires { self.old.seen < self.old.line }
        ensures lender { kerns.new.slots.ghost_name ≡ kerns.old.slots.ghost_name }
        ensures place { place self.new ≡ place self.old }
        ensures standing { standing self.new ≡ see_after (standing self.old) (take_pair self.old.file.now glyphs.now (holding kerns.old) (part line.entry)) }
        ensures after { holding kerns.new ≡ after (holding kerns.old) (take_pair self.old.file.now glyphs.now (holding kerns.old) (part line.entry)) }
        ensures answer { result ≡ answer (take_pair self.old.file.now glyphs.now (holding kerns.old) (part line.entry)) }
    {
        let pair = self.new_pair(line, glyphs, kerns.as_slice())?;
        self.keep(kerns, pair)
    }

    // Keeps what an entry line gives, if it gives anything, and counts the line.
    fn keep<T: Copy>(
        &mut self,
        list: &mut BoundedList<'_, T>,
        entry: Option<T>,
    ) -> Result<(), LineFault>
        requires { self.old.seen < self.old.line }
        ensures lender { list.new.slots.ghost_name ≡ list.old.slots.ghost_name }
        ensures place { place self.new ≡ place self.old }
        ensures standing { standing self.new ≡ see_after (standing self.old) (kept (holding list.old) entry) }
        ensures after { holding list.new ≡ after (holding list.old) (kept (holding list.old) entry) }
        ensures answer { result ≡ answer (kept (holding list.old) entry) }
    {
        if let Some(entry) = entry {
            list.push(entry)?;
        }
        self.seen += 1;
        Ok(())
    }
}

impl<'a> Reader<'a> {
    #[tactic(auto, unfolding(crate::specs::Steps::line_step))]
    pub(crate) fn take_line(
        &mut self,
        mut line: Line<'a>,
        glyphs: &mut BoundedList<'_, Glyph>,
        kerns: &mut BoundedList<'_, KernPair>,
    ) -> Result<(), LineFault>
        requires { self.old.seen < self.old.line }
        ensures glyph_lender { glyphs.new.slots.ghost_name ≡ glyphs.old.slots.ghost_name }
        ensures kern_lender { kerns.new.slots.ghost_name ≡ kerns.old.slots.ghost_name }
        ensures place { place self.new ≡ place self.old }
        ensures after { progress self.new glyphs.new kerns.new ≡ after (progress self.old glyphs.old kerns.old) (line_step self.old.file.now (progress self.old glyphs.old kerns.old) (part line.entry)) }
        ensures answer { result ≡ answer (line_step self.old.file.now (progress self.old glyphs.old kerns.old) (part line.entry)) }
    {
        let word = line.next_word();
        let role = self.role(word.text);
        self.act(role, line, glyphs, kerns)
    }

    // `line` is what follows the line's first word.
    fn act(
        &mut self,
        role: Role,
        line: Line<'a>,
        glyphs: &mut BoundedList<'_, Glyph>,
        kerns: &mut BoundedList<'_, KernPair>,
    ) -> Result<(), LineFault>
        requires { self.old.seen < self.old.line }
        ensures glyph_lender { glyphs.new.slots.ghost_name ≡ glyphs.old.slots.ghost_name }
        ensures kern_lender { kerns.new.slots.ghost_name ≡ kerns.old.slots.ghost_name }
        ensures place { place self.new ≡ place self.old }
        ensures after { progress self.new glyphs.new kerns.new ≡ after (progress self.old glyphs.old kerns.old) (act role self.old.file.now (progress self.old glyphs.old kerns.old) (part line.entry)) }
        ensures answer { result ≡ answer (act role self.old.file.now (progress self.old glyphs.old kerns.old) (part line.entry)) }
    {
        match role {
            Role::Enters(section) => {
                self.section = section;
                Ok(())
            }
            Role::Opens(section) => self.open(section, line),
            Role::Glyph => self.take_glyph(line, glyphs),
            Role::Pair => self.take_pair(line, glyphs.as_slice(), kerns),
            Role::Closes(section) => self.close(section),
            Role::Skipped => Ok(()),
            Role::Misplaced => Err(LineFault::Misplaced),
        }
    }
}
