// Painting the rows of a sheet.
ghost use Rattle.std.specs.Prelude.{◌≡◌, map, take, drop, IfOk};
ghost use Rattle.std.specs.List.{slice_get};
ghost use Rattle.std.specs.Option.{option_map};
ghost use Rattle.sheet.specs.Clean.{Making};
ghost use Rattle.sheet.specs.Histories.{Follows, History, Unchanged, clean_after, clean_screen};
ghost use Rattle.sheet.specs.States.{state};
ghost use Rattle.screen.specs.Views.{shown_row};

use crate::shown_row::ShownRow;
use metrics::measurer::Measurer;
use page::policy::Policy;
use page::text::MAX_CHARACTERS;
use sheet::sheet::Sheet;
use std::alloc::{AllocError, Global};

// The rows from `from` on, at most `put` of them and no more than the sheet has.
pub(crate) fn paint_rows<M: Measurer, P: Policy>(
    heap: Global,
    sheet: &mut Sheet<M, P>,
    from: usize,
    put: usize,
) -> Result<Vec<ShownRow>, AllocError>
    ensures same { Unchanged (state M.meaning M.sound P.rules sheet.old) (state M.meaning M.sound P.rules sheet.new) }
    ensures value { (k : Making) (h : History) → Follows k h (state M.meaning M.sound P.rules sheet.old) → IfOk result (λ v. map shown_row v.items ≡ take put (drop from (clean_screen k (clean_after k h)))) }
{
    let mut painted = Vec::new(heap);
    'rows: for number in from..from.saturating_add(put) {
        let Some(row) = paint_row(heap, sheet, number)? else {
            break;
        };
        painted.push(row)?;
    }
    Ok(painted)
}

// A row of the sheet as it is shown, if the sheet has that row. No row is longer than the buffers, so
// a refusal says that there is none.
fn paint_row<M: Measurer, P: Policy>(
    heap: Global,
    sheet: &mut Sheet<M, P>,
    number: usize,
) -> Result<Option<ShownRow>, AllocError>
    ensures same { Unchanged (state M.meaning M.sound P.rules sheet.old) (state M.meaning M.sound P.rules sheet.new) }
    ensures value { (k : Making) (h : History) → Follows k h (state M.meaning M.sound P.rules sheet.old) → IfOk result (λ o. option_map shown_row o ≡ slice_get (clean_screen k (clean_after k h)) number) }
{
    let mut chars = [0; MAX_CHARACTERS];
    let mut edges = [0; MAX_CHARACTERS];
    let Ok(row) = sheet.row(number, &mut chars) else {
        return Ok(None);
    };
    let Ok(_) = sheet.edges(number, &mut edges) else {
        return Ok(None);
    };
    let len = row.end.saturating_sub(row.start).min(MAX_CHARACTERS);
    Ok(Some(ShownRow {
        chars: Vec::from_slice(heap, &chars[0..len])?,
        edges: Vec::from_slice(heap, &edges[0..len])?,
        ending: row.ending,
    }))
}
