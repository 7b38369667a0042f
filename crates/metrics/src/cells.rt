// Cells: every covered character has the same advance.
ghost use Rattle.std.specs.Prelude.{◌≡◌, ◌≤◌, IfOk, MatchResult};
ghost use Rattle.metrics.specs.Cells.{cells_meaning, CellSizes};
ghost use Rattle.metrics.specs.Faults.{number};
ghost use Rattle.std.proofs.Common.{rules, arith};

use crate::fault::{MissingGlyph, OutOfRange};
use crate::measurer::Measurer;

// Cells of one size, 1 to 2,000, for the codes 32 to 126.
#[derive(Clone, Copy, Debug)]
pub struct Cells {
    size: u16,
    ghost least: { 1 ≤ size },
    ghost most: { size ≤ 2000 },
}

impl Cells {
    pub fn new(size: u32) -> Result<Cells, OutOfRange>
        ensures value { MatchResult result (λ cells. CellSizes size × (cells.size ≡ size)) (λ e. (CellSizes size → ⊥) × (e ≡ OutOfRange.CellSize) × (number e ≡ 17)) }
        ensures sound { IfOk result (λ cells. ⟦<Cells as Measurer>⟧.sound cells) }
    {
        match size {
            1..=2_000 => Ok(Cells { size: size as u16 }),
            _ => Err(OutOfRange::CellSize),
        }
    }
}

impl Measurer for Cells {
    ghost meaning = { λ cells. cells_meaning cells.size };

    ghost bounded = { first_of (Prim.search rules, Prim.grind (arith, Self.row.coded.inj)) };

    fn covers(&mut self, c: u8) -> bool {
        matches!(c, 32..=126)
    }

    fn advance(&mut self, _before: Option<u8>, c: u8) -> Result<u16, MissingGlyph> {
        match c {
            32..=126 => Ok(self.size),
            _ => Err(MissingGlyph { code: c, depth: 0 }),
        }
    }
}
