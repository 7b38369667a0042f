// What a measurer refuses.
ghost use Rattle.std.specs.Prelude.{◌≡◌};
ghost use Rattle.metrics.specs.Faults.{number};
ghost use Rattle.metrics.specs.Limits.{deeper};

// A character without a glyph, and how many layers down it was missed.
#[derive(Clone, Copy, Debug, PartialEq, Eq)]
pub struct MissingGlyph {
    pub code: u8,
    pub depth: u8,
}

impl MissingGlyph {
    // The same character, missed one layer further down.
    pub fn deeper(self) -> MissingGlyph
        ensures { (result.code ≡ self.code) × (result.depth ≡ deeper self.depth) }
    {
        MissingGlyph {
            depth: self.depth.saturating_add(1),
            ..self
        }
    }
}

// A setting of a measurer that lies outside its range.
#[derive(Clone, Copy, Debug, PartialEq, Eq)]
pub enum OutOfRange {
    CellSize,
    Tracking,
}

impl OutOfRange {
    pub fn number(self) -> u8
        ensures { result ≡ number self }
    {
        match self {
            OutOfRange::CellSize => 17,
            OutOfRange::Tracking => 17,
        }
    }
}
