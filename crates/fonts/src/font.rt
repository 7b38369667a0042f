// Fonts: a table of widths by code, and the kerns of pairs in order.
ghost use Rattle.std.specs.Prelude.{◌≡◌, ℕ, pos, IfOk, Some, None};
ghost use Rattle.std.specs.Option.{unwrap_or};
ghost use Rattle.fonts.specs.Font.{width_in, kern_in, font_meaning, width_at, kern_at, Searchable, table_meaning};
ghost use Rattle.std.proofs.Common.{rules};
ghost use Rattle.std.proofs.Props.{props};

use metrics::entry::{Glyph, KernPair};
use metrics::fault::MissingGlyph;
use metrics::measurer::{MAX_ADVANCE, Measurer, cut};
use std::alloc::{AllocError, Global};
use std::collections::BTreeMap;

// A width for each covered code, and what is added to it after some predecessors.
#[derive(Drop)]
pub struct Font {
    widths: [Option<u16>; 256],
    kerns: BTreeMap<(u8, u8), i16>,
    ghost searchable: { Searchable kerns } by { Prim.hlevel props },
}

impl Font {
    // Of the entries for one code, and of those for one pair, the first counts.
    pub fn new(heap: Global, glyphs: &[Glyph], kerns: &[KernPair]) -> Result<Font, AllocError>
        ensures { IfOk result (λ font. table_meaning font.widths font.kerns ≡ font_meaning glyphs.now kerns.now) }
    {
        Ok(Font {
            widths: widths_by_code(glyphs),
            kerns: kerns_by_pair(heap, kerns)?,
        })
    }

    fn kern(&self, p: u8, c: u8) -> i16
        ensures { result ≡ unwrap_or (kern_at self.now.kerns p c) (pos 0) }
    {
        self.kerns.get(&(p, c)).copied().unwrap_or(0)
    }
}

// A code that is already there keeps its width.
fn widths_by_code(glyphs: &[Glyph]) -> [Option<u16>; 256]
    ensures { (c : ℕ) → width_at result c ≡ width_in glyphs.now c }
{
    let mut widths = [None; 256];
    for glyph in glyphs {
        if let Some(code) = glyph.code
            && widths[code as usize].is_none()
        {
            widths[code as usize] = Some(glyph.width);
        }
    }
    widths
}

// A pair that is already there keeps its kern.
fn kerns_by_pair(heap: Global, pairs: &[KernPair]) -> Result<BTreeMap<(u8, u8), i16>, AllocError>
    ensures { IfOk result (λ kerns. Searchable kerns × ((p c : ℕ) → kern_at kerns p c ≡ kern_in pairs.now p c)) }
{
    let mut kerns = BTreeMap::new(heap);
    for pair in pairs {
        let key = (pair.first, pair.second);
        if !kerns.contains_key(&key) {
            kerns.insert(key, pair.kern)?;
        }
    }
    Ok(kerns)
}

impl Measurer for Font {
    ghost meaning = { λ font. table_meaning font.widths font.kerns };

    ghost bounded = { Prim.search rules };

    fn covers(&mut self, c: u8) -> bool {
        self.widths[c as usize].is_some()
    }

    fn advance(&mut self, before: Option<u8>, c: u8) -> Result<u16, MissingGlyph> {
        let width = self.widths[c as usize]
            .ok_or(MissingGlyph { code: c, depth: 0 })?
            .min(MAX_ADVANCE);
        match before {
            None => Ok(width),
            Some(p) => Ok(cut(i32::from(width) + i32::from(self.kern(p, c)))),
        }
    }
}
