// The layers piled up: advance cache over tracking over fallback over font and cells.
ghost use Rattle.std.specs.Prelude.{◌≡◌, replicate, IfOk, None};
ghost use Rattle.layers.specs.Cache.{most_held};
ghost use Rattle.fonts.specs.Font.{font_meaning, table_meaning};
ghost use Rattle.metrics.specs.Meaning.{answer};
ghost use Rattle.fonts.specs.Pile.{piled, Worked};

use crate::font::Font;
use layers::cache::AdvanceCache;
use layers::fallback::Fallback;
use layers::tracking::{Tracking, TrackingUnits};
use metrics::cells::Cells;
use metrics::entry::{Glyph, KernPair};
use metrics::fault::MissingGlyph;
use metrics::measurer::Measurer;
use std::alloc::{AllocError, Global};

// Cells take what the font does not cover; the advances are tracked, and then held.
pub type Pile = AdvanceCache<Tracking<Fallback<Font, Cells>>>;

pub fn pile(font: Font, cells: Cells, units: TrackingUnits) -> Pile
    ensures font { result.below.below.first ≡ font }
    ensures cells { result.below.below.second ≡ cells }
    ensures units { result.below.units ≡ units }
    ensures held { result.pairs.slots ≡ replicate most_held None }
    ensures meaning { ⟦<Pile as Measurer>⟧.meaning result ≡ piled (table_meaning font.widths font.kerns) cells.size units }
    ensures sound { ⟦<Pile as Measurer>⟧.sound result }
    ensures worked { Worked }
{
    AdvanceCache::new(Tracking::new(Fallback::new(font, cells), units))
}

// What a pile made of these entries answers to its first question.
pub fn first_answer(
    heap: Global,
    glyphs: &[Glyph],
    kerns: &[KernPair],
    cells: Cells,
    units: TrackingUnits,
    before: Option<u8>,
    c: u8,
) -> Result<Result<u16, MissingGlyph>, AllocError>
    ensures { IfOk result (λ a. a ≡ answer (piled (font_meaning glyphs.now kerns.now) cells.size units) before c) }
{
    let font = Font::new(heap, glyphs, kerns)?;
    let mut measurer = pile(font, cells, units);
    Ok(measurer.advance(before, c))
}
