// What a refusal tells.
use layout::cover::Uncovered;

// The number of a refusal, and what it tells besides.
#[derive(Clone, Copy, Debug)]
pub enum Told {
    // the number alone
    Number(u8),
    // a character without a glyph, whose number is `Uncovered::number`
    NoGlyph(Uncovered),
}
