// Making a sheet.
ghost use Rattle.std.specs.Prelude.{◌≡◌, [], ◌∷◌, IfOk};
ghost use Rattle.layout.specs.Styles.{style};
ghost use Rattle.sheet.specs.Clean.{empty_row};
ghost use Rattle.sheet.specs.Histories.{Follows};
ghost use Rattle.sheet.specs.States.{state};

use super::Sheet;
use buffer::gap_buffer::GapBuffer;
use layout::row_list::RowList;
use layout::setter::Setter;
use metrics::measurer::Measurer;
use page::ending::Ending;
use page::policy::Policy;
use page::row::Row;
use std::alloc::{AllocError, Global};

impl<M: Measurer + Drop, P: Policy + Drop> Sheet<M, P> {
    // A sheet with no text, which has one empty row.
    pub fn new(heap: Global, setter: Setter<M, P>) -> Result<Sheet<M, P>, AllocError>
        ensures follows { IfOk result (λ s. M.sound setter.measurer → Follows (style M.meaning P.rules setter) [] (state M.meaning M.sound P.rules s)) }
        ensures counted { IfOk result (λ s. (state M.meaning M.sound P.rules s).tally ≡ setter.tally) }
    {
        let text = GapBuffer::new(heap)?;
        let rows = one_empty_row(heap)?;
        let spare = RowList::new(heap)?;
        Ok(Sheet {
            setter,
            text,
            rows,
            spare,
            owed: None,
        })
    }
}

// The rows of an empty text.
fn one_empty_row(heap: Global) -> Result<RowList, AllocError>
    ensures { IfOk result (λ l. l.rows.items ≡ empty_row ∷ []) }
{
    let mut rows = RowList::new(heap)?;
    let _ = rows.push(Row {
        start: 0,
        end: 0,
        ending: Ending::End,
        width: 0,
        reach: 1,
    });
    Ok(rows)
}
