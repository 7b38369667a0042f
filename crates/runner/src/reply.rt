// What a line of a script answers.
use page::row::Row;
use reflow::repaint::Repaint;

#[derive(Clone, Copy)]
pub enum Reply {
    // a change is settled: what to paint again, and how many rows there are now
    Painted { record: Repaint, rows: usize },
    // a row's record
    Shown(Row),
}
