// What comes of a case.
use crate::calls::print_calls;
use crate::case::{Case, FontCase, Setting};
use crate::stop::Stop;
use afm::font::read_font;
use fonts::font::Font;
use fonts::pile::pile;
use layers::tracking::TrackingUnits;
use layout::setter::Setter;
use listing::writer::ListWriter;
use lists::bounded::BoundedList;
use metrics::cells::Cells;
use metrics::entry::{Glyph, KernPair};
use metrics::measurer::Measurer;
use page::measure::{Measure, NoSuchMeasure};
use page::policy::Breaks;
use runner::run::run;
use sheet::sheet::Sheet;
use std::io;
use std::io::Write;

// Runs a case; what refuses it is printed behind what it printed before.
pub fn print_outcome(rt: &HostRuntime, case: &Case) -> io::Result<()> {
    match print_case(rt, case) {
        Ok(()) => Ok(()),
        Err(Stop::Io(e)) => Err(e),
        Err(Stop::Memory(e)) => Err(e.into()),
        Err(refused) => rt.println(refused),
    }
}

fn print_case(rt: &HostRuntime, case: &Case) -> Result<(), Stop> {
    match case {
        Case::Script(on) => {
            let cells = Cells::new(on.size)?;
            print_list(rt, setter(cells, on.setting)?, on.setting.room, on.lines)
        }
        Case::Calls(on) => {
            let cells = Cells::new(on.size)?;
            print_calls(rt, setter(cells, on.setting)?, on.setting.room, on.lines)
        }
        Case::Font(on) => print_font(rt, on),
    }
}

// What a case sets its text with.
fn setter<M: Drop>(measurer: M, setting: Setting) -> Result<Setter<M, Breaks>, NoSuchMeasure> {
    Ok(Setter::new(measurer, setting.breaks, Measure::new(setting.measure)?))
}

// A script on the pile over a font, if the font is read.
fn print_font(rt: &HostRuntime, on: &FontCase) -> Result<(), Stop> {
    let heap = rt.alloc();
    let units = TrackingUnits::new(on.tracking)?;
    let cells = Cells::new(500)?;
    let measure = Measure::new(on.setting.measure)?;
    let mut glyph_slots = vec![in heap; Glyph::default(); on.glyphs]?;
    let mut kern_slots = vec![in heap; KernPair::default(); on.kerns]?;
    let mut glyphs = BoundedList::new(&mut glyph_slots);
    let mut kerns = BoundedList::new(&mut kern_slots);
    read_font(on.font, &mut glyphs, &mut kerns)?;
    let font = Font::new(heap, glyphs.as_slice(), kerns.as_slice())?;
    let setter = Setter::new(pile(font, cells, units), on.setting.breaks, measure);
    print_list(rt, setter, on.setting.room, on.script)
}

// The list of a script, and where it ran out of room.
fn print_list<M: Measurer + Drop>(
    rt: &HostRuntime,
    setter: Setter<M, Breaks>,
    room: usize,
    script: &[u8],
) -> Result<(), Stop> {
    let heap = rt.alloc();
    let mut sheet = Sheet::new(heap, setter)?;
    let mut buffer = vec![in heap; 0; room]?;
    let mut list = ListWriter::new(&mut buffer);
    let ended = run(script, &mut sheet, &mut list);
    rt.stdout().write_all(list.written())?;
    Ok(ended?)
}
