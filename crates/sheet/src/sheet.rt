// The sheet.
use buffer::gap_buffer::GapBuffer;
use layout::row_list::RowList;
use layout::setter::Setter;
use reflow::repaint::Repaint;

mod calls;
mod changes;
mod edges;
mod making;

// A text set at a measure, with its rows. A change is laid into `spare` and swapped in once it is
// accepted, so that a refusal has nothing to undo. Clauses see its `state`. No `impl Model`: the value
// would hold what the measurer means, which is a function, and a function has no code; nor a ghost field
// that its rows are laid, since that would ask whoever names the type for the bounds.
#[derive(Drop)]
pub struct Sheet<M, P> {
    setter: Setter<M, P>,
    text: GapBuffer,
    rows: RowList,
    spare: RowList,
    owed: Option<Repaint>,
}

// A debt of one repaint. Whoever has one must settle it: it cannot be let go, nor settled twice.
pub struct Slip {
    owes: (),
}
