// The whole file.
ghost use Rattle.std.specs.Prelude.{◌≡◌};
ghost use Rattle.lists.specs.Holding.{holding};
ghost use Rattle.afm.specs.Reading.{read_font};

use crate::fault::AfmFault;
use crate::reader::Reader;
use lists::bounded::BoundedList;
use metrics::entry::{Glyph, KernPair};

// Reads a font into both lists. Entries of lines before a refused one stay in them.
pub fn read_font(
    file: &[u8],
    glyphs: &mut BoundedList<'_, Glyph>,
    kerns: &mut BoundedList<'_, KernPair>,
) -> Result<(), AfmFault>
    ensures glyph_lender { glyphs.new.slots.ghost_name ≡ glyphs.old.slots.ghost_name }
    ensures kern_lender { kerns.new.slots.ghost_name ≡ kerns.old.slots.ghost_name }
    ensures glyphs { holding glyphs.new ≡ (read_font file.now (holding glyphs.old) (holding kerns.old)).glyphs }
    ensures kerns { holding kerns.new ≡ (read_font file.now (holding glyphs.old) (holding kerns.old)).kerns }
    ensures answer { result ≡ (read_font file.now (holding glyphs.old) (holding kerns.old)).answer }
{
    let mut reader = Reader::new(file);
    'lines: while !reader.has_ended() {
        if reader.is_over() {
            return Err(AfmFault::Over {
                line: reader.lines_read() + 1,
            });
        }
        let line = reader.next_line();
        let number = reader.lines_read();
        reader
            .take_line(line, glyphs, kerns)
            .map_err(|fault| AfmFault::At {
                line: number,
                fault,
            })?;
    }
    Ok(())
}
