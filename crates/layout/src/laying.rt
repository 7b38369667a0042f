// Laying a whole text into rows.
ghost use Rattle.std.specs.Prelude.{◌≡◌, ◌+◌, ◌%◌, ◌^◌};
ghost use Rattle.layout.specs.Layouts.{laid, broken_for};
ghost use Rattle.layout.specs.Styles.{style};
ghost use Rattle.layout.specs.Theorems.{LayoutLaws};
ghost use Rattle.layout.specs.declared.laying.LayFault.TheVariants.{NoGlyph, TooManyRows};

use crate::cover::Uncovered;
use crate::row_list::{MAX_ROWS, RowList};
use crate::setter::Setter;
use lists::full::Full;
use metrics::measurer::Measurer;
use page::policy::Policy;
use page::text::Characters;

// Why a text is not laid.
#[derive(Clone, Copy, Debug)]
pub enum LayFault {
    // a character has no glyph
    NoGlyph(Uncovered),
    // the layout would have more than 1,024 rows
    TooManyRows,
}

// By hand, since contracts name the variant and a derived `From` has none.
impl From<Uncovered> for LayFault {
    ghost from_gives = { λ u r. r ≡ NoGlyph u };

    fn from(u: Uncovered) -> LayFault {
        LayFault::NoGlyph(u)
    }
}

impl From<Full> for LayFault {
    ghost from_gives = { λ _ r. r ≡ TooManyRows };

    fn from(_full: Full) -> LayFault {
        LayFault::TooManyRows
    }
}

impl<M: Measurer, P: Policy> Setter<M, P> {
    // Lays the whole text into `rows`, whatever they held. A refusal leaves the rows that were laid up
    // to there.
    pub fn lay<T: Characters>(&mut self, text: &T, rows: &mut RowList) -> Result<(), LayFault>
        ensures kept { style M.meaning P.rules self.new ≡ style M.meaning P.rules self.old }
        ensures lenders { M.lenders self.new.measurer ≡ M.lenders self.old.measurer }
        ensures policy { self.new.policy ≡ self.old.policy }
        ensures stays { M.sound self.old.measurer → M.sound self.new.measurer }
        ensures value { M.sound self.old.measurer → result ≡ (laid (M.meaning self.old.measurer) (P.rules self.old.policy) self.old.measure (T.chars text.now)).answer }
        ensures items { M.sound self.old.measurer → rows.new.rows.items ≡ (laid (M.meaning self.old.measurer) (P.rules self.old.policy) self.old.measure (T.chars text.now)).rows }
        ensures laws { LayoutLaws (M.meaning self.old.measurer) (P.rules self.old.policy) self.old.measure }
        ensures counted { M.sound self.old.measurer → self.new.tally ≡ (self.old.tally + broken_for (laid (M.meaning self.old.measurer) (P.rules self.old.policy) self.old.measure (T.chars text.now))) % 2 ^ 64 }
    {
        rows.clear();
        let mut start = 0;
        'rows: while rows.len() < MAX_ROWS {
            let row = self.break_row(text, start)?;
            rows.push(row)?;
            let Some(next) = row.next_start() else {
                return Ok(());
            };
            start = next;
        }
        Err(LayFault::TooManyRows)
    }
}
