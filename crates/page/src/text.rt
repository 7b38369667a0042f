// The texts that rows are broken over.
ghost use Rattle.std.specs.Prelude.{◌≡◌, ℕ, ◌<◌, ◌≤◌, List, length, vec_len, MatchResult};
ghost use Rattle.page.specs.Texts.{seen, part, most_characters};

use std::marker::Model;

// The most characters that a text has.
pub const MAX_CHARACTERS: usize = 4_096;

pub const NEWLINE: u8 = b'\n';

// Characters by their place: a text of its own, a gap buffer, a text as it would be after an edit.
pub trait Characters {
    ghost chars: { Self → List ℕ };

    fn len(&self) -> usize
        ensures value { result ≡ length (chars self.now) }
        ensures few { length (chars self.now) ≤ most_characters };

    // The character at a place, if the text goes that far.
    fn get(&self, at: usize) -> Option<u8>
        ensures { result ≡ seen (chars self.now) at };
}

// A text of its own.
#[derive(Drop)]
pub struct Text {
    chars: Vec<u8>,
}

// Clauses see the characters.
impl Model for Text {
    ghost Value = { List ℕ };

    ghost view = { λ t. t.chars.items };

    ghost invariant = { λ t. length t.chars.items ≤ most_characters };
}

// More than 4,096 characters would stand.
#[derive(Clone, Copy, Debug)]
pub struct TooLong;

impl Text {
    pub fn new(chars: Vec<u8>) -> Result<Text, TooLong>
        ensures { MatchResult result (λ t. (vec_len chars ≤ most_characters) × (t ≡ chars.items)) (λ _. most_characters < vec_len chars) }
    {
        if chars.len() > MAX_CHARACTERS {
            return Err(TooLong);
        }
        Ok(Text { chars })
    }

    pub fn as_slice(&self) -> &[u8]
        ensures value { result.now ≡ self.now }
        ensures few { length self.now ≤ most_characters }
    {
        self.chars.as_slice()
    }

    // The part [start, end) of the text, as far as the text goes.
    pub fn part(&self, start: usize, end: usize) -> &[u8]
        ensures value { result.now ≡ part self.now start end }
        ensures few { length self.now ≤ most_characters }
    {
        let end = end.min(self.chars.len());
        let start = start.min(end);
        &self.chars[start..end]
    }
}

impl Characters for Text {
    ghost chars = { λ t. t };

    fn len(&self) -> usize {
        self.chars.len()
    }

    fn get(&self, at: usize) -> Option<u8> {
        self.chars.get(at).copied()
    }
}
