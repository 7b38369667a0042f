// What the calls of a sheet refuse.
ghost use Rattle.std.specs.Prelude.{◌≡◌};
ghost use Rattle.sheet.specs.Carried.{replace_fault};
ghost use Rattle.sheet.specs.declared.fault.ReplaceFault.TheVariants.{NoGlyph};

use layout::cover::Uncovered;
use layout::laying::LayFault;

// Why a replace is refused.
#[derive(Clone, Copy, Debug)]
pub enum ReplaceFault {
    // a repaint is owed
    Owed,
    // the place or the characters to delete lie beyond the text
    OutOfText,
    // more than 4,096 characters would stand
    TooLong,
    // an inserted character has no glyph; the offset is its place in the insertion
    NoGlyph(Uncovered),
    // the layout would have more than 1,024 rows
    TooManyRows,
}

// By hand, since contracts name the variant and a derived `From` has none.
impl From<Uncovered> for ReplaceFault {
    ghost from_gives = { λ u r. r ≡ NoGlyph u };

    fn from(u: Uncovered) -> ReplaceFault {
        ReplaceFault::NoGlyph(u)
    }
}

impl From<LayFault> for ReplaceFault {
    ghost from_gives = { λ e r. r ≡ replace_fault e };

    fn from(e: LayFault) -> ReplaceFault {
        match e {
            LayFault::NoGlyph(u) => ReplaceFault::NoGlyph(u),
            LayFault::TooManyRows => ReplaceFault::TooManyRows,
        }
    }
}

// Why a measure is not set.
#[derive(Clone, Copy, Debug)]
pub enum RemeasureFault {
    // a repaint is owed
    Owed,
    // the layout would have more than 1,024 rows
    TooManyRows,
}

// Nothing is owed.
#[derive(Clone, Copy, Debug)]
pub struct NothingOwed;

// Why a row is not copied.
#[derive(Clone, Copy, Debug)]
pub enum RowFault {
    // there is no row of that number
    NoSuchRow,
    // the buffer is too short for the row's characters
    ShortBuffer,
}
