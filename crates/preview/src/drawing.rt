// The label as the customer sees it, drawn in columns of a terminal.
ghost use Rattle.std.specs.Prelude.{◌≡◌, ◌<◌, IfOk, string_bytes};
ghost use Rattle.layout.specs.Widths.{trimmed};
ghost use Rattle.preview.specs.Drawings.{column_units, columns, framed};

use crate::lines::push_times;
use page::measure::Measure;
use page::policy::Policy;
use std::alloc::{AllocError, Global};

// How many units a column of the drawing stands for.
#[derive(Clone, Copy)]
pub enum Column {
    // a cell of 500
    Cell,
    // half of it, for the narrow letters of a font
    HalfCell,
}

impl Column {
    fn units(self) -> usize
        ensures value { result ≡ column_units self }
        ensures positive { 0 < result }
    {
        match self {
            Column::Cell => 500,
            Column::HalfCell => 250,
        }
    }

    // How many columns the measure takes, the last one perhaps in part.
    pub fn count(self, measure: Measure) -> usize
        ensures { result ≡ columns (column_units self) measure }
    {
        (measure.units() as usize).div_ceil(self.units())
    }
}

// The row's characters without those that hang at its end.
pub fn unhung<'a, P: Policy>(policy: &P, chars: &'a [u8]) -> &'a [u8]
    ensures { result.now ≡ trimmed (P.rules policy.now) chars.now }
{
    let mut kept = chars;
    'trim: while let [rest @ .., last] = kept
        && policy.hangs(*last)
    {
        kept = rest;
    }
    kept
}

// A row inside the frame: each character stands in the column where its advance begins, or in the
// next free one. A row that is wider than the measure is marked.
pub fn framed_row(
    heap: Global,
    column: Column,
    measure: Measure,
    chars: &[u8],
    edges: &[u32],
) -> Result<String, AllocError>
    ensures { IfOk result (λ s. string_bytes s ≡ framed column measure chars.now edges.now) }
{
    let mut line = String::from_str(heap, "|")?;
    let mut edges_left = edges.iter();
    let mut edge: u32 = 0;
    let mut used: usize = 0;
    for c in chars {
        let place = used.max(edge as usize / column.units());
        push_times(&mut line, ' ', place - used)?;
        line.push(char::from(*c))?;
        used = place + 1;
        edge = edges_left.next().copied().unwrap_or(0);
    }
    push_times(&mut line, ' ', column.count(measure).saturating_sub(used))?;
    line.push('|')?;
    if edge > measure.units() {
        line.push_str(" < wider than the label")?;
    }
    Ok(line)
}
