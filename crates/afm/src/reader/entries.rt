// What an entry line gives, checked against the entries taken so far.
ghost use Rattle.std.specs.Prelude.{◌≡◌};
ghost use Rattle.afm.specs.Parts.{line as part};
ghost use Rattle.afm.specs.Steps.{glyph_given, new_glyph, fresh_codes, new_pair};

use super::Reader;
use crate::entry_line::{glyph_of, pair_of};
use crate::fault::LineFault;
use crate::part::Line;
use crate::search::{coded, named, paired, text_at};
use metrics::entry::{Glyph, KernPair};

impl<'a> Reader<'a> {
    #[tactic(auto, unfolding(crate::specs::Steps::new_glyph))]
    pub(super) fn new_glyph(&self, line: Line<'a>, glyphs: &[Glyph]) -> Result<Glyph, LineFault>
        ensures { result ≡ new_glyph self.now.file.now glyphs.now (part line.entry) }
    {
        let glyph = glyph_of(line).ok_or(LineFault::Field)?;
        if self.has(glyph, glyphs) {
            Err(LineFault::Again)
        } else {
            Ok(glyph)
        }
    }

    // Whether a glyph has this one's name or its code.
    fn has(&self, glyph: Glyph, glyphs: &[Glyph]) -> bool
        ensures { result ≡ glyph_given self.now.file.now glyph glyphs.now }
    {
        named(self.file, text_at(self.file, glyph.name), glyphs).is_some()
            || glyph.code.is_some_and(|code| coded(code, glyphs))
    }

    // The pair to keep, if both its glyphs have a code.
    #[tactic(auto, unfolding(crate::specs::Steps::new_pair))]
    pub(super) fn new_pair(
        &self,
        line: Line<'a>,
        glyphs: &[Glyph],
        kerns: &[KernPair],
    ) -> Result<Option<KernPair>, LineFault>
        ensures { result ≡ new_pair self.now.file.now glyphs.now kerns.now (part line.entry) }
    {
        let pair = pair_of(line).ok_or(LineFault::Field)?;
        let first = named(self.file, pair.first.text, glyphs).ok_or(LineFault::UnknownName)?;
        let second = named(self.file, pair.second.text, glyphs).ok_or(LineFault::UnknownName)?;
        fresh_codes(first.code, second.code, pair.kern, kerns)
    }
}

fn fresh_codes(
    first: Option<u8>,
    second: Option<u8>,
    kern: i16,
    kerns: &[KernPair],
) -> Result<Option<KernPair>, LineFault>
    ensures { result ≡ fresh_codes kerns.now first second kern }
{
    let (Some(first), Some(second)) = (first, second) else {
        return Ok(None);
    };
    if paired(first, second, kerns) {
        return Err(LineFault::Again);
    }
    Ok(Some(KernPair {
        first,
        second,
        kern,
    }))
}
