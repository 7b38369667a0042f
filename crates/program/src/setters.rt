// What the programs set text with.
ghost use Rattle.std.specs.Prelude.{MatchResult};
ghost use Rattle.program.specs.Choices.{AsAsked, RightlyRefused};

use crate::font_file;
use crate::options::Options;
use crate::stop::Stop;
use fonts::pile::{Pile, pile};
use layers::tracking::TrackingUnits;
use layout::setter::Setter;
use metrics::cells::Cells;
use page::measure::Measure;
use page::policy::Breaks;

// Cells alone, or the layers over a font.
#[derive(Drop)]
pub enum Chosen {
    Cells(Setter<Cells, Breaks>),
    Font(Setter<Pile, Breaks>),
}

// What the options ask for: cells of 500, or a font over them, tracked.
pub fn choose(rt: &HostRuntime, options: Options) -> Result<Chosen, Stop>
    ensures { MatchResult result (AsAsked options) (RightlyRefused options) }
{
    let Options {
        measure,
        font,
        tracking,
        breaks,
    } = options;
    let measure = Measure::new(measure)?;
    let units = TrackingUnits::new(tracking)?;
    let cells = Cells::new(500)?;
    let Some(path) = font else {
        return Ok(Chosen::Cells(Setter::new(cells, breaks, measure)));
    };
    let measurer = pile(font_file::load(rt, path.as_str())?, cells, units);
    Ok(Chosen::Font(Setter::new(measurer, breaks, measure)))
}
