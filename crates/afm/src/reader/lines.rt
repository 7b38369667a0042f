// The file's lines, one after another.
ghost use Rattle.std.specs.Prelude.{◌≡◌, ◌+◌, ◌<◌, ◌≤◌, length, ◌==◌};
ghost use Rattle.std.specs.List.{prefix_len};
ghost use Rattle.afm.specs.Kinds.{is_inline};
ghost use Rattle.afm.specs.Lines.{text_length, first_line, past_line};
ghost use Rattle.afm.specs.Parts.{line as part};
ghost use Rattle.afm.specs.Steps.{rest, standing};

use super::Reader;
use crate::part::Line;

impl<'a> Reader<'a> {
    pub(crate) fn is_over(&self) -> bool
        ensures { result ≡ (length (rest self.now).text == 0) }
    {
        self.rest().rest.is_empty()
    }

    fn rest(&self) -> Line<'a>
        ensures { part result ≡ rest self.now }
    {
        Line {
            rest: &self.file[self.at..],
            at: self.at,
        }
    }

    #[tactic(auto, unfolding(crate::specs::Lines::first_line, crate::specs::Lines::past_line))]
    pub(crate) fn next_line(&mut self) -> Line<'a>
        requires { 0 < length (rest self.old).text }
        ensures value { part result ≡ first_line (rest self.old) }
        ensures rest { rest self.new ≡ past_line (rest self.old) }
        ensures count { self.new.line ≡ self.old.line + 1 }
        ensures file { self.new.file.now ≡ self.old.file.now }
        ensures standing { standing self.new ≡ standing self.old }
    {
        let start = self.rest();
        let len = line_length(start.rest);
        self.at += (len + 1).min(start.rest.len());
        self.line += 1;
        start.front(text_length(start.rest, len))
    }
}

// How many bytes stand before the line's newline, or the file's end.
fn line_length(rest: &[u8]) -> usize
    ensures value { result ≡ prefix_len is_inline rest.now }
    ensures bound { result ≤ length rest.now }
{
    rest.iter().take_while(|b| **b != b'\n').count()
}

// How much of a line that ends after `len` bytes is text: a return before its newline is not.
fn text_length(rest: &[u8], len: usize) -> usize
    requires { len ≤ length rest.now }
    ensures value { result ≡ text_length rest.now len }
    ensures bound { result ≤ len }
{
    match &rest[..len] {
        [text @ .., b'\r'] if len < rest.len() => text.len(),
        _ => len,
    }
}
