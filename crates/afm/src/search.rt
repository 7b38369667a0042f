// Looking up names, codes and pairs among the entries taken so far.
ghost use Rattle.std.specs.Prelude.{◌≡◌};
ghost use Rattle.afm.specs.Lookups.{text_at, named, coded, paired};

use crate::words::is;
use metrics::entry::{Glyph, KernPair, Span};

// The glyph of a name, which stands in the file.
pub fn named(file: &[u8], name: &[u8], glyphs: &[Glyph]) -> Option<Glyph>
    ensures { result ≡ named file.now name.now glyphs.now }
{
    glyphs
        .iter()
        .copied()
        .find(|glyph| is(text_at(file, glyph.name), name))
}

// Whether a glyph has a code.
pub fn coded(code: u8, glyphs: &[Glyph]) -> bool
    ensures { result ≡ coded code glyphs.now }
{
    glyphs.iter().any(|glyph| glyph.code == Some(code))
}

// Whether a pair has a kern.
pub fn paired(first: u8, second: u8, kerns: &[KernPair]) -> bool
    ensures { result ≡ paired first second kerns.now }
{
    kerns
        .iter()
        .any(|pair| (pair.first, pair.second) == (first, second))
}

// The bytes of a span, as far as the file has them.
pub fn text_at(file: &[u8], span: Span) -> &[u8]
    ensures { result.now ≡ text_at file.now span }
{
    let start = span.at.min(file.len());
    let rest = &file[start..];
    let len = span.len.min(rest.len());
    &rest[..len]
}
