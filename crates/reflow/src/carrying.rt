// The old rows after an edit: those before it that stay, and those behind it that move along.
ghost use Rattle.std.specs.Prelude.{◌≡◌, ◌+◌, ◌<◌, ◌++◌, List, map, length, MatchResult};
ghost use Rattle.page.specs.declared.row.Row.{Row as OneRow};
ghost use Rattle.reflow.specs.Edits.{resumed, Small};
ghost use Rattle.reflow.specs.Repaints.{first_reaching};
ghost use Rattle.std.specs.List.{AllByRecursion, AllZip};

use crate::edit::Edit;
use layout::row_list::RowList;
use lists::full::Full;
use page::row::Row;

// The first old row that reads what the edit changes.
pub(crate) fn first_reaching(old: &[Row], edit: Edit) -> usize
    ensures { result ≡ first_reaching edit old.now }
{
    old.iter().take_while(|row| row.reach <= edit.at).count()
}

// A row behind the edit, where the edit moves it.
fn resumed(row: Row, edit: Edit) -> Row
    ensures { Small (resumed edit.del edit.ins row) → result ≡ resumed edit.del edit.ins row }
{
    Row {
        start: edit.moved(row.start),
        end: edit.moved(row.end),
        reach: edit.moved(row.reach),
        ..row
    }
}

// Puts what becomes of the rows behind those in the list.
fn append<F: Fn(Row) -> Row>(rows: &mut RowList, old: &[Row], becomes: F) -> Result<(), Full>
    requires { F.IsAlwaysCallable becomes }
    ensures { MatchResult result (λ _. (new : List OneRow) × (rows.new.rows.items ≡ rows.old.rows.items ++ new) × AllZip (F.post becomes) old.now new) (λ _. 1024 < length rows.old.rows.items + length old.now) }
{
    for row in old {
        rows.push(becomes(*row))?;
    }
    Ok(())
}

// Puts the rows behind those in the list.
pub(crate) fn carry(rows: &mut RowList, old: &[Row]) -> Result<(), Full>
    ensures { MatchResult result (λ _. rows.new.rows.items ≡ rows.old.rows.items ++ old.now) (λ _. 1024 < length rows.old.rows.items + length old.now) }
{
    append(rows, old, |row| row)
}

// Puts the rows, moved by the edit, behind those in the list.
pub(crate) fn resume(rows: &mut RowList, old: &[Row], edit: Edit) -> Result<(), Full>
    ensures { MatchResult result (λ _. AllByRecursion (λ row. Small (resumed edit.del edit.ins row)) old.now → rows.new.rows.items ≡ rows.old.rows.items ++ map (resumed edit.del edit.ins) old.now) (λ _. 1024 < length rows.old.rows.items + length old.now) }
{
    append(rows, old, |row| resumed(row, edit))
}
