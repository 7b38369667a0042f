// Laying again what an edit changes.
ghost use Rattle.std.specs.Prelude.{◌≡◌, ◌+◌, ◌-◌, ◌%◌, ◌^◌, ◌<◌, ◌≤◌, min, List, length, IfOk, MatchResult, OnOk, slice_index_or};
ghost use Rattle.layout.specs.declared.laying.LayFault.TheVariants.{TooManyRows};
ghost use Rattle.layout.specs.Layouts.{most_rows};
ghost use Rattle.layout.specs.Styles.{style};
ghost use Rattle.page.specs.Texts.{most_characters};
ghost use Rattle.page.specs.declared.row.Row.{Row as OneRow};
ghost use Rattle.reflow.specs.Relaying.{Changed, Underway, Resumes, Relaid};
ghost use Rattle.reflow.specs.Theorems.{ReflowLaws};

use crate::carrying::{carry, first_reaching, resume};
use crate::edit::Edit;
use crate::meeting::meet;
use crate::repaint::Repaint;
use crate::repainting::repainted;
use layout::laying::LayFault;
use layout::row_list::{MAX_ROWS, RowList};
use layout::setter::Setter;
use metrics::measurer::Measurer;
use page::policy::Policy;
use page::row::Row;
use page::text::Characters;

// Where rows are broken from: the start of the old row `first`, and within the text whatever the rows are.
fn restart<T: Characters>(text: &T, old: &[Row], first: usize) -> usize
    ensures value { first < length old.now → (d : OneRow) → result ≡ min (slice_index_or old.now first d).start (length (T.chars text.now)) }
    ensures few { length (T.chars text.now) ≤ most_characters }
{
    let end = text.len();
    old.get(first).map_or(end, |row| row.start.min(end))
}

// Breaks rows from `start` on until one would start where an old row did, and answers that old row; or,
// where the text ends first, the number of old rows.
fn break_until_met<T: Characters, M: Measurer, P: Policy>(
    text: &T,
    setter: &mut Setter<M, P>,
    edit: Edit,
    old: &[Row],
    start: usize,
    rows: &mut RowList,
) -> Result<usize, LayFault>
    ensures kept { style M.meaning P.rules setter.new ≡ style M.meaning P.rules setter.old }
    ensures lenders { M.lenders setter.new.measurer ≡ M.lenders setter.old.measurer }
    ensures stays { M.sound setter.old.measurer → M.sound setter.new.measurer }
    ensures policy { setter.new.policy ≡ setter.old.policy }
    ensures within { IfOk result (λ j. j ≤ length old.now) }
    ensures counted { OnOk result ((length rows.old.rows.items ≤ length rows.new.rows.items) × (setter.old.tally < 2 ^ 64 → setter.new.tally ≡ (setter.old.tally + (length rows.new.rows.items - length rows.old.rows.items)) % 2 ^ 64)) }
    ensures met { M.sound setter.old.measurer → (new : List OneRow) → Changed (M.meaning setter.old.measurer) (P.rules setter.old.policy) setter.old.measure (T.chars text.now) edit old.now new → Underway (M.meaning setter.old.measurer) (P.rules setter.old.policy) setter.old.measure (T.chars text.now) edit old.now new rows.old.rows.items start → MatchResult result (λ j. Resumes edit old.now new rows.new.rows.items j) (λ f. (f ≡ TooManyRows) × (most_rows < length new)) }
{
    let mut start = start;
    let mut from = 0;
    'rows: while rows.len() < MAX_ROWS {
        match meet(old, from, edit, start) {
            Ok(met) => return Ok(met),
            Err(next) => from = next,
        }
        let row = setter.break_row(text, start)?;
        rows.push(row)?;
        let Some(next) = row.next_start() else {
            return Ok(old.len());
        };
        start = next;
    }
    Err(LayFault::TooManyRows)
}

// Lays `text`, which is the old text after `edit`, into `rows`, and answers what to paint again. Old rows
// that the edit does not reach are carried over, then rows are broken until one starts where an old row
// started, and the rest are the old rows, moved. A refusal leaves the rows that were laid up to there.
pub fn relay<T: Characters, M: Measurer, P: Policy>(
    text: &T,
    setter: &mut Setter<M, P>,
    edit: Edit,
    old: &[Row],
    rows: &mut RowList,
) -> Result<Repaint, LayFault>
    ensures kept { style M.meaning P.rules setter.new ≡ style M.meaning P.rules setter.old }
    ensures lenders { M.lenders setter.new.measurer ≡ M.lenders setter.old.measurer }
    ensures stays { M.sound setter.old.measurer → M.sound setter.new.measurer }
    ensures policy { setter.new.policy ≡ setter.old.policy }
    ensures laws { ReflowLaws (M.meaning setter.old.measurer) (P.rules setter.old.policy) setter.old.measure }
    ensures relaid { M.sound setter.old.measurer → Relaid (M.meaning setter.old.measurer) (P.rules setter.old.policy) setter.old.measure (T.chars text.now) edit old.now result rows.new.rows.items setter.old.tally setter.new.tally }
{
    rows.clear();
    let first = first_reaching(old, edit);
    carry(rows, &old[..first])?;
    let start = restart(text, old, first);
    let before = setter.tally;
    let resumed = break_until_met(text, setter, edit, old, start, rows)?;
    let broken = setter.tally.wrapping_sub(before);
    let met = rows.len();
    resume(rows, &old[resumed..], edit)?;
    Ok(repainted(edit, old, rows.as_slice(), met, broken))
}
