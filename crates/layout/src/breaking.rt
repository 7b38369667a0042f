// The one step by which every row is broken.
ghost use Rattle.std.specs.Prelude.{◌≡◌, ◌+◌, ◌%◌, ◌^◌, ◌≤◌, min, length};
ghost use Rattle.layout.specs.Scans.{row_from};
ghost use Rattle.layout.specs.Styles.{style};
ghost use Rattle.layout.specs.Theorems.{RightlyBroken, RowLaws};
ghost use Rattle.page.specs.Texts.{most_characters};

use crate::cover::Uncovered;
use crate::scan::Scan;
use crate::setter::Setter;
use metrics::measurer::Measurer;
use page::ending::Ending;
use page::policy::Policy;
use page::row::Row;
use page::text::{Characters, NEWLINE};

impl<M: Measurer, P: Policy> Setter<M, P> {
    // Breaks the row that starts at `start`, or at the end of the text if that comes first, and adds
    // one to the tally of rows broken.
    pub fn break_row<T: Characters>(&mut self, text: &T, start: usize) -> Result<Row, Uncovered>
        ensures kept { style M.meaning P.rules self.new ≡ style M.meaning P.rules self.old }
        ensures lenders { M.lenders self.new.measurer ≡ M.lenders self.old.measurer }
        ensures policy { self.new.policy ≡ self.old.policy }
        ensures stays { M.sound self.old.measurer → M.sound self.new.measurer }
        ensures value { M.sound self.old.measurer → result ≡ row_from (M.meaning self.old.measurer) (P.rules self.old.policy) self.old.measure (T.chars text.now) (min start (length (T.chars text.now))) }
        ensures first_fit { M.sound self.old.measurer → RightlyBroken (M.meaning self.old.measurer) (P.rules self.old.policy) self.old.measure (T.chars text.now) (min start (length (T.chars text.now))) result }
        ensures laws { RowLaws (M.meaning self.old.measurer) (P.rules self.old.policy) self.old.measure }
        ensures few { length (T.chars text.now) ≤ most_characters }
        ensures counted { self.new.tally ≡ (self.old.tally + 1) % 2 ^ 64 }
    {
        self.tally = self.tally.wrapping_add(1);
        let mut scan = Scan::new(start.min(text.len()));
        'scan: while let Some(c) = text.get(scan.place) {
            if c == NEWLINE {
                return Ok(scan.whole(Ending::Newline));
            }
            let offset = scan.place;
            let advance = self
                .measurer
                .advance(scan.before, c)
                .map_err(|glyph| Uncovered { offset, glyph })?;
            let next = scan.taken(&self.policy, c, advance);
            if next.width > self.measure.units() {
                return Ok(scan.over(&next, text.get(next.place)));
            }
            scan = next;
        }
        Ok(scan.whole(Ending::End))
    }
}
