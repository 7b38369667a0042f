// Characters without a glyph.
ghost use Rattle.std.specs.Prelude.{◌≡◌};
ghost use Rattle.layout.specs.Covers.{first_uncovered, cover_answer, lacking};

use metrics::fault::MissingGlyph;
use metrics::measurer::Measurer;
use page::text::NEWLINE;

// The character at `offset` has no glyph.
#[derive(Clone, Copy, Debug)]
pub struct Uncovered {
    pub offset: usize,
    pub glyph: MissingGlyph,
}

impl Uncovered {
    pub fn number(self) -> u8
        ensures { result ≡ 4 }
    {
        4
    }
}

// The glyph that `c` lacks; a newline needs none.
fn lacking<M: Measurer>(measurer: &mut M, c: u8) -> Option<MissingGlyph>
    ensures same { M.meaning measurer.new ≡ M.meaning measurer.old }
    ensures lenders { M.lenders measurer.new ≡ M.lenders measurer.old }
    ensures stays { M.sound measurer.old → M.sound measurer.new }
    ensures value { M.sound measurer.old → result ≡ lacking (M.meaning measurer.old) c }
{
    if c == NEWLINE || measurer.covers(c) {
        return None;
    }
    measurer.advance(None, c).err()
}

// Refuses the first character, newlines aside, that has no glyph.
pub fn check_cover<M: Measurer>(measurer: &mut M, chars: &[u8]) -> Result<(), Uncovered>
    ensures same { M.meaning measurer.new ≡ M.meaning measurer.old }
    ensures lenders { M.lenders measurer.new ≡ M.lenders measurer.old }
    ensures stays { M.sound measurer.old → M.sound measurer.new }
    ensures value { M.sound measurer.old → result ≡ cover_answer (first_uncovered (M.meaning measurer.old) 0 chars.now) }
{
    for (offset, c) in chars.iter().enumerate() {
        if let Some(glyph) = lacking(measurer, *c) {
            return Err(Uncovered { offset, glyph });
        }
    }
    Ok(())
}
