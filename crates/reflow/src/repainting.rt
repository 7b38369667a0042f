// The record of what an edit has a screen paint again.
ghost use Rattle.std.specs.Prelude.{◌≡◌, ◌-◌, ◌≤◌, length};
ghost use Rattle.reflow.specs.Repaints.{first_reaching, front, kept, meeting, repaint_of};

use crate::edit::Edit;
use crate::repaint::Repaint;
use page::row::Row;

// Whether a row is shown as before: the same part of the text, which the edit leaves alone.
fn kept(at: usize, row: &Row, other: &Row) -> bool
    ensures { result ≡ kept at row.now other.now }
{
    (row.start, row.end, row.ending) == (other.start, other.end, other.ending) && row.end <= at
}

// The number of leading rows that are shown as before.
fn front(at: usize, old: &[Row], new: &[Row]) -> usize
    ensures value { result ≡ front at old.now new.now }
    ensures among_old { result ≤ length old.now }
    ensures among_new { result ≤ length new.now }
{
    old.iter()
        .zip(new)
        .take_while(|(row, other)| kept(at, row, other))
        .count()
}

// The record of an edit after which the new row `met` is the first that meets an old one.
pub(crate) fn repainted(edit: Edit, old: &[Row], new: &[Row], met: usize, broken: u64) -> Repaint
    ensures { met ≡ meeting edit old.now new.now → broken ≡ met - first_reaching edit old.now → result ≡ repaint_of edit old.now new.now }
{
    let from = front(edit.at, old, new);
    let removed = old.len() - from;
    let put = new.len() - from;
    let back = new.len().saturating_sub(met).min(put.min(removed));
    Repaint {
        whole: false,
        from,
        removed: removed - back,
        put: put - back,
        broken,
    }
}
