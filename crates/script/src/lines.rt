// The lines of a script.
ghost use Rattle.std.specs.Prelude.{◌≡◌, ◌≤◌, length, IfSome, ⊤};
ghost use Rattle.std.specs.Iterator.{YieldsFirstRef, item_count, MakesProgress};
ghost use Rattle.script.specs.Left.{lines_left};
ghost use Rattle.script.specs.Lines.{lines};
ghost use Rattle.script.specs.Theorems.{LineLaws};

use crate::split::split_once;
use page::text::NEWLINE;

// What is still to be read of a script.
#[derive(Drop)]
pub struct Lines<'s> {
    rest: &'s [u8],
}

impl<'s> Lines<'s> {
    pub fn new(script: &'s [u8]) -> Lines<'s>
        ensures start { result.rest.now ≡ script.now }
        ensures laws { LineLaws }
    {
        Lines { rest: script }
    }
}

impl<'s> Iterator for Lines<'s> {
    type Item = &'s [u8];

    ghost next_gives = { YieldsFirstRef lines_left };

    ghost remaining = { item_count lines_left };

    // The next line, without its newline.
    fn next(&mut self) -> Option<&'s [u8]>
        ensures steps { YieldsFirstRef lines_left self.old result self.new }
        ensures goes { MakesProgress (λ _. ⊤) (item_count lines_left) self.old result self.new }
        ensures bound { IfSome result (λ line. length line.now ≤ length self.old.rest.now) }
        ensures few { length (lines self.old.rest.now) ≤ length self.old.rest.now }
    {
        match split_once(self.rest, NEWLINE) {
            Some((line, rest)) => {
                self.rest = rest;
                Some(line)
            }
            None if self.rest.is_empty() => None,
            None => {
                let last = self.rest;
                self.rest = &[];
                Some(last)
            }
        }
    }
}
