// A line's words, one after another.
ghost use Rattle.std.specs.Prelude.{◌≡◌, ◌≤◌, length};
ghost use Rattle.std.specs.List.{prefix_len};
ghost use Rattle.std.specs.Str.{bytes_eq};
ghost use Rattle.afm.specs.Kinds.{is_blank, is_dark};
ghost use Rattle.afm.specs.Parts.{line, word, first_word, past_word, past, front, is};

use crate::part::{Line, Word};

impl<'a> Line<'a> {
    // The next word, which is empty at the line's end.
    #[tactic(auto, unfolding(crate::specs::Parts::first_word, crate::specs::Parts::past_word))]
    pub fn next_word(&mut self) -> Word<'a>
        ensures value { word result ≡ first_word (line self.old) }
        ensures after { line self.new ≡ past_word (line self.old) }
    {
        let start = self.past(blank_front(self.rest));
        let len = dark_front(start.rest);
        *self = start.past(len);
        let word = start.front(len);
        Word {
            text: word.rest,
            at: word.at,
        }
    }

    fn past(self, n: usize) -> Line<'a>
        requires { n ≤ length self.rest.now }
        ensures { line result ≡ past n (line self.entry) }
    {
        Line {
            rest: &self.rest[n..],
            at: self.at + n,
        }
    }

    pub fn front(self, n: usize) -> Line<'a>
        requires { n ≤ length self.rest.now }
        ensures { line result ≡ front n (line self.entry) }
    {
        Line {
            rest: &self.rest[0..n],
            at: self.at,
        }
    }
}

// How many bytes in front part words.
fn blank_front(text: &[u8]) -> usize
    ensures value { result ≡ prefix_len is_blank text.now }
    ensures bound { result ≤ length text.now }
{
    text.iter()
        .take_while(|b| matches!(**b, b' ' | b'\t'))
        .count()
}

// How many bytes in front are of one word.
fn dark_front(text: &[u8]) -> usize
    ensures value { result ≡ prefix_len is_dark text.now }
    ensures bound { result ≤ length text.now }
{
    text.iter()
        .take_while(|b| !matches!(**b, b' ' | b'\t'))
        .count()
}

// Whether a word is this keyword, byte for byte.
pub fn is(text: &[u8], keyword: &[u8]) -> bool
    ensures { result ≡ is text.now keyword.now }
{
    text == keyword
}
