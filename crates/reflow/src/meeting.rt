// Where new rows meet the old ones: behind an edit, where an old row started.
ghost use Rattle.std.specs.Prelude.{ℕ, ◌+◌, ◌-◌, ◌<◌, ◌≤◌, length, MatchResult, slice_index_or};
ghost use Rattle.page.specs.declared.row.Row.{Row as OneRow};
ghost use Rattle.reflow.specs.Relaying.{Ascending, Before, Met, Unmet};

use crate::edit::Edit;
use page::row::Row;

// How many of the rows start less than `del` behind `place`, a sum that may not fit, before the first
// that does not.
fn passed(rows: &[Row], place: usize, del: usize) -> usize
    ensures within { result ≤ length rows.now }
    ensures passed { (i : ℕ) (d : OneRow) → i < result → i < length rows.now → (slice_index_or rows.now i d).start < place + del }
    ensures stops { (d : OneRow) → result < length rows.now → place + del ≤ (slice_index_or rows.now result d).start }
{
    rows.iter()
        .take_while(|row| row.start < del || row.start - del < place)
        .count()
}

// The first old row from `from` on that starts at least `del` behind `place`.
fn seek(old: &[Row], from: usize, place: usize, del: usize) -> usize
    requires { from ≤ length old.now }
    ensures onward { from ≤ result }
    ensures passed { (i : ℕ) (d : OneRow) → from ≤ i → i < result → i < length old.now → (slice_index_or old.now i d).start < place + del }
    ensures stops { (d : OneRow) → result < length old.now → place + del ≤ (slice_index_or old.now result d).start }
{
    from + passed(&old[from..], place, del)
}

// The old row from `from` on that started where a new row starts now; or, if there is none, the old
// row from which on to look for one that starts later.
pub(crate) fn meet(old: &[Row], from: usize, edit: Edit, start: usize) -> Result<usize, usize>
    ensures { MatchResult result (λ j. Met edit old.now start j) (λ j. Ascending old.now → Before old.now from (start - edit.ins + edit.del) → Unmet edit old.now start j) }
{
    if start < edit.at || start - edit.at < edit.ins {
        return Err(from);
    }
    let place = start - edit.ins;
    let j = seek(old, from.min(old.len()), place, edit.del);
    match old.get(j) {
        Some(row) if row.start - edit.del == place => Ok(j),
        _ => Err(j),
    }
}
