// Refusals in words, each with its number and all that it tells.
ghost use Rattle.std.specs.Prelude.{◌≡◌};
ghost use Rattle.preview.specs.declared.words.Refusal.TheVariants.{Long, NoMeasure, Unset, Setting};

use layout::laying::LayFault;
use layout::setting::SetFault;
use metrics::fault::OutOfRange;
use page::measure::NoSuchMeasure;
use page::text::TooLong;
use std::fmt;
use thiserror::Error;

// Why a program shows no label.
#[derive(Clone, Copy, Debug, Error)]
pub enum Refusal {
    #[error("3: the text has more than 4096 characters")]
    Long(TooLong),
    #[error("6: a measure lies between 1 and 60000")]
    NoMeasure(NoSuchMeasure),
    #[error(fmt = unset)]
    Unset(SetFault),
    #[error(fmt = out_of_range)]
    Setting(OutOfRange),
}

// By hand, since a derived `From` does not promise which refusal it makes.
impl From<TooLong> for Refusal {
    ghost from_gives = { λ e r. r ≡ Long e };

    fn from(e: TooLong) -> Refusal {
        Refusal::Long(e)
    }
}

impl From<NoSuchMeasure> for Refusal {
    ghost from_gives = { λ e r. r ≡ NoMeasure e };

    fn from(e: NoSuchMeasure) -> Refusal {
        Refusal::NoMeasure(e)
    }
}

impl From<SetFault> for Refusal {
    ghost from_gives = { λ e r. r ≡ Unset e };

    fn from(e: SetFault) -> Refusal {
        Refusal::Unset(e)
    }
}

impl From<OutOfRange> for Refusal {
    ghost from_gives = { λ e r. r ≡ Setting e };

    fn from(e: OutOfRange) -> Refusal {
        Refusal::Setting(e)
    }
}

fn unset<W: fmt::Write>(fault: &SetFault, f: &mut fmt::Formatter<W>) -> fmt::Result {
    match fault {
        SetFault::Refused(LayFault::NoGlyph(u)) => write!(
            f,
            "4: no glyph at offset {} for character {}, depth {}",
            u.offset, u.glyph.code, u.glyph.depth
        ),
        SetFault::Refused(LayFault::TooManyRows) => {
            write!(f, "5: the text needs more than 1024 rows")
        }
        SetFault::Memory => write!(f, "out of memory"),
    }
}

fn out_of_range<W: fmt::Write>(fault: &OutOfRange, f: &mut fmt::Formatter<W>) -> fmt::Result {
    match fault {
        OutOfRange::CellSize => write!(f, "17: a cell size lies between 1 and 2000"),
        OutOfRange::Tracking => write!(f, "17: tracking lies between -500 and 500"),
    }
}
