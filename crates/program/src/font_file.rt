// Fonts from files.
use crate::stop::Stop;
use afm::font::read_font;
use fonts::font::Font;
use lists::bounded::BoundedList;
use metrics::entry::{Glyph, KernPair};
use std::fs;

// How many entries of each kind a font may have.
const SLOTS: usize = 9_999;

pub fn load(rt: &HostRuntime, path: &str) -> Result<Font, Stop> {
    let heap = rt.alloc();
    let named = || String::from_str(heap, path);
    let file = fs::read(rt, path).try_map_err(|error| Ok(Stop::NoFile {
        path: named()?,
        error,
    }))?;
    let mut glyph_slots = vec![in heap; Glyph::default(); SLOTS]?;
    let mut kern_slots = vec![in heap; KernPair::default(); SLOTS]?;
    let mut glyphs = BoundedList::new(&mut glyph_slots);
    let mut kerns = BoundedList::new(&mut kern_slots);
    read_font(&file, &mut glyphs, &mut kerns).try_map_err(|fault| Ok(Stop::Font {
        path: named()?,
        fault,
    }))?;
    Ok(Font::new(heap, glyphs.as_slice(), kerns.as_slice())?)
}
