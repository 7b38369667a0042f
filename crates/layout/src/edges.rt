// The edges of a row's characters.
ghost use Rattle.std.specs.Prelude.{◌≡◌, ◌≤◌, ◌++◌, length, drop};
ghost use Rattle.layout.specs.Covers.{AllCovered};
ghost use Rattle.layout.specs.Widths.{edges as edges_of};
ghost use Rattle.page.specs.Texts.{part};

use metrics::measurer::Measurer;
use page::text::Characters;

// Writes the edge behind each character of the part [start, end) to the front of `edges`, as far as
// there is room. A character without a glyph takes no width; in a row that was laid there is none.
pub fn write_edges<T: Characters, M: Measurer>(
    text: &T,
    measurer: &mut M,
    start: usize,
    end: usize,
    edges: &mut [u32],
)
    ensures same { M.meaning measurer.new ≡ M.meaning measurer.old }
    ensures lenders { M.lenders measurer.new ≡ M.lenders measurer.old }
    ensures stays { M.sound measurer.old → M.sound measurer.new }
    ensures value { M.sound measurer.old → AllCovered (M.meaning measurer.old) (part (T.chars text.now) start end) → length (part (T.chars text.now) start end) ≤ length edges.old → edges.new ≡ edges_of (M.meaning measurer.old) (part (T.chars text.now) start end) ++ drop (length (part (T.chars text.now) start end)) edges.old }
{
    let count = end.min(text.len()).saturating_sub(start).min(edges.len());
    let mut before = None;
    let mut edge = 0;
    // by place, since nothing is known of a slice after an adapter over its `iter_mut`
    'turn: for i in 0..count {
        let c = text.get(start + i).unwrap_or(0);
        edge += u32::from(measurer.advance(before, c).unwrap_or(0));
        edges[i] = edge;
        before = Some(c);
    }
}
