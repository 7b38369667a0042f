// The fields of a line, each in its range.
ghost use Rattle.std.specs.Prelude.{◌≡◌};
ghost use Rattle.std.specs.Option.{option_map};
ghost use Rattle.numerals.specs.Reading.{integer};
ghost use Rattle.afm.specs.Fields.{code_of, width_of, kern_of, count_of, name_of, expected};
ghost use Rattle.afm.specs.Numbers.{within};
ghost use Rattle.afm.specs.Parts.{line, word, first_word, past_word};

use crate::part::{Line, Word};
use crate::words::is;
use metrics::measurer::MAX_ADVANCE;
use numerals::reading::integer;

const MAX_COUNT: i32 = 9_999;

// The number, if it lies in this range.
fn number_within(text: &[u8], low: i32, high: i32) -> Option<i32>
    ensures { result ≡ within low high (integer text.now) }
{
    integer(text).filter(|n| (low..=high).contains(n))
}

// A glyph's code, or none for -1.
pub fn code_of(text: &[u8]) -> Option<Option<u8>>
    ensures { result ≡ code_of text.now }
{
    Some(u8::try_from(number_within(text, -1, 255)?).ok())
}

// One line each: over any number type they would still be needed, for their ranges.
pub fn width_of(text: &[u8]) -> Option<u16>
    ensures { result ≡ width_of text.now }
{
    Some(number_within(text, 0, i32::from(MAX_ADVANCE))? as u16)
}

pub fn kern_of(text: &[u8]) -> Option<i16>
    ensures { result ≡ kern_of text.now }
{
    let most = i32::from(MAX_ADVANCE);
    Some(number_within(text, -most, most)? as i16)
}

// How many entries a section announces.
pub fn count_of(text: &[u8]) -> Option<usize>
    ensures { result ≡ count_of text.now }
{
    Some(number_within(text, 0, MAX_COUNT)? as usize)
}

impl<'a> Line<'a> {
    // Reads one word, which has to be this one.
    pub fn expect(&mut self, keyword: &[u8]) -> Option<()>
        ensures value { result ≡ expected keyword.now (first_word (line self.old)) }
        ensures after { line self.new ≡ past_word (line self.old) }
    {
        let word = self.next_word();
        is(word.text, keyword).then_some(())
    }

    // Reads a name, which is any word.
    pub fn name(&mut self) -> Option<Word<'a>>
        ensures value { option_map word result ≡ name_of (first_word (line self.old)) }
        ensures after { line self.new ≡ past_word (line self.old) }
    {
        let word = self.next_word();
        (!word.text.is_empty()).then_some(word)
    }
}
