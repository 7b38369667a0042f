// Entry lines: what stands after the first word of a glyph's line and of a pair's line.
ghost use Rattle.std.specs.Prelude.{◌≡◌};
ghost use Rattle.std.specs.Option.{option_map};
ghost use Rattle.afm.specs.Entries.{glyph_of, pair_of, pair_line};
ghost use Rattle.afm.specs.Parts.{line as part};

use crate::field::{code_of, kern_of, width_of};
use crate::part::{Line, Word};
use metrics::entry::{Glyph, Span};

// `code ; WX width ; N name ;`
pub fn glyph_of(mut line: Line) -> Option<Glyph>
    ensures { result ≡ glyph_of (part line.entry) }
{
    let code = code_of(line.next_word().text)?;
    line.expect(b";")?;
    line.expect(b"WX")?;
    let width = width_of(line.next_word().text)?;
    line.expect(b";")?;
    line.expect(b"N")?;
    let name = line.name()?;
    line.expect(b";")?;
    Some(Glyph {
        name: Span {
            at: name.at,
            len: name.text.len(),
        },
        code,
        width,
    })
}

// The names of a pair, and its kern.
#[derive(Clone, Copy)]
pub struct PairLine<'a> {
    pub first: Word<'a>,
    pub second: Word<'a>,
    pub kern: i16,
}

// `first second kern`
pub fn pair_of(mut line: Line<'_>) -> Option<PairLine<'_>>
    ensures { option_map pair_line result ≡ pair_of (part line.entry) }
{
    let first = line.name()?;
    let second = line.name()?;
    let kern = kern_of(line.next_word().text)?;
    Some(PairLine {
        first,
        second,
        kern,
    })
}
