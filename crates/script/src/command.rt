// A line of a script, and what it asks for.
ghost use Rattle.std.specs.Prelude.{◌≡◌, ◌<◌, ◌≤◌, length, take, IfSome, None, MatchOption};
ghost use Rattle.page.specs.Texts.{most_characters};
ghost use Rattle.script.specs.Asked.{asked, answered, asked_number};
ghost use Rattle.script.specs.Reading.{command, replacing, numbered, spelt, short, Begins, escape};
ghost use Rattle.script.specs.Theorems.{CommandLaws};
ghost use Rattle.std.specs.Option.{option_map};

use crate::split::split_once;
use numerals::reading::magnitude;
use page::text::{MAX_CHARACTERS, NEWLINE};

const BACKSLASH: u8 = b'\\';

// What a line asks of a sheet.
#[derive(Clone, Copy)]
pub enum Command<'t> {
    // `text` in place of the `del` characters at `at`
    Replace {
        at: usize,
        del: usize,
        text: &'t [u8],
    },
    // a measure to be made, and set
    Measure {
        units: u32,
    },
    Refresh,
    Show {
        row: usize,
    },
}

// The line is no command.
#[derive(Clone, Copy, Debug)]
pub struct NoCommand;

impl NoCommand {
    pub fn number(self) -> u8
        ensures { result ≡ 16 }
    {
        16
    }
}

// Reads a line. The text that it inserts is spelt out at the front of `spelling`.
pub fn read_command<'t>(
    line: &[u8],
    spelling: &'t mut [u8; MAX_CHARACTERS],
) -> Result<Command<'t>, NoCommand>
    ensures value { answered result ≡ command line.now }
    ensures laws { CommandLaws }
{
    read(line, spelling).ok_or(NoCommand)
}

fn read<'t>(line: &[u8], spelling: &'t mut [u8; MAX_CHARACTERS]) -> Option<Command<'t>>
    ensures { option_map asked result ≡ command line.now }
{
    match line {
        [b'R', b' ', rest @ ..] => read_replace(rest, spelling),
        [b'M', b' ', digits @ ..] => Some(Command::Measure {
            units: magnitude(digits)?,
        }),
        [b'F'] => Some(Command::Refresh),
        [b'S', b' ', digits @ ..] => Some(Command::Show {
            row: magnitude(digits)? as usize,
        }),
        _ => None,
    }
}

// A replace, by what follows its letter.
fn read_replace<'t>(rest: &[u8], spelling: &'t mut [u8; MAX_CHARACTERS]) -> Option<Command<'t>>
    ensures { option_map asked result ≡ replacing rest.now }
{
    let (at, rest) = number_and_rest(rest)?;
    let (del, written) = number_and_rest(rest)?;
    let len = spell(written, spelling)?;
    Some(Command::Replace {
        at,
        del,
        text: &spelling[0..len],
    })
}

// The number before the first space, and what follows that space.
fn number_and_rest(line: &[u8]) -> Option<(usize, &[u8])>
    ensures { option_map asked_number result ≡ numbered line.now }
{
    let (digits, rest) = split_once(line, b' ')?;
    Some((magnitude(digits)? as usize, rest))
}

// Spells a written text out at the front of `spelling`, and answers how many characters it has. By
// index, since no clause tells what a slice holds after writes through its `iter_mut` or `get_mut`.
fn spell(written: &[u8], spelling: &mut [u8; MAX_CHARACTERS]) -> Option<usize>
    ensures value { option_map (λ n. take n spelling.new) result ≡ short (spelt written.now) }
    ensures bound { IfSome result (λ n. n ≤ most_characters) }
{
    let mut rest = written;
    let mut len = 0;
    'characters: while !rest.is_empty() {
        let (c, after) = first_character(rest)?;
        if len >= MAX_CHARACTERS {
            return None;
        }
        spelling[len] = c;
        len += 1;
        rest = after;
    }
    Some(len)
}

// The character that is written first, and what follows it.
fn first_character(written: &[u8]) -> Option<(u8, &[u8])>
    requires { 0 < length written.now }
    ensures { MatchOption result (spelt written.now ≡ None) (λ p. Begins written.now p.0 p.1.now) }
{
    match written {
        [c, rest @ ..] if *c != BACKSLASH => Some((*c, rest)),
        [_, b, rest @ ..] => Some((escape(*b)?, rest)),
        [_] => None,
        [] => None,
    }
}

// The character that a backslash and `b` stand for.
fn escape(b: u8) -> Option<u8>
    ensures { result ≡ escape b }
{
    match b {
        b'n' => Some(NEWLINE),
        BACKSLASH => Some(BACKSLASH),
        _ => None,
    }
}
