// The cases of a file.
ghost use Rattle.std.specs.Prelude.{◌<◌, ◌≤◌, length, IfSome};
ghost use Rattle.std.specs.Iterator.{at_most};

use numerals::reading::{integer, magnitude};
use page::policy::Breaks;
use std::mem;
use std::str::Split;

// What the sheet of a case is made from, beside its measurer, and how much room its list has.
#[derive(Clone, Copy)]
pub struct Setting {
    pub measure: u32,
    pub breaks: Breaks,
    pub room: usize,
}

// The lines of a case on cells.
#[derive(Clone, Copy)]
pub struct CellsCase<'a> {
    pub size: u32,
    pub setting: Setting,
    pub lines: &'a [u8],
}

// A script on the pile over a font, with slots for so many glyphs and kern pairs.
#[derive(Clone, Copy)]
pub struct FontCase<'a> {
    pub glyphs: usize,
    pub kerns: usize,
    pub tracking: i32,
    pub setting: Setting,
    pub font: &'a [u8],
    pub script: &'a [u8],
}

#[derive(Clone, Copy)]
pub enum Case<'a> {
    // a script
    Script(CellsCase<'a>),
    // calls that are not settled straight after
    Calls(CellsCase<'a>),
    Font(FontCase<'a>),
}

// The bytes are no case.
#[derive(Clone, Copy, Debug)]
pub struct Unreadable;

// The cases that are still to be read. After bytes that are no case there are none.
#[derive(Drop)]
pub struct Cases<'a> {
    rest: &'a [u8],
}

impl<'a> Cases<'a> {
    pub fn new(bytes: &'a [u8]) -> Cases<'a> {
        Cases { rest: bytes }
    }
}

impl<'a> Iterator for Cases<'a> {
    type Item = Result<Case<'a>, Unreadable>;

    ghost remaining = { λ s. at_most (length s.rest.now) };

    fn next(&mut self) -> Option<Result<Case<'a>, Unreadable>> {
        let mut rest = mem::replace(&mut self.rest, &[]);
        if rest.is_empty() {
            return None;
        }
        let Some(case) = take_case(&mut rest) else {
            return Some(Err(Unreadable));
        };
        self.rest = rest;
        Some(Ok(case))
    }
}

// The words of a header, with single spaces between them.
type Words<'h> = Split<'h, char>;

// Takes the first case off the front. The header is cut by its length, since `split_once` does not
// promise that less is left.
fn take_case<'a>(bytes: &mut &'a [u8]) -> Option<Case<'a>>
    ensures { IfSome result (λ _. length bytes.new.now < length bytes.old.now) }
{
    let end = bytes.iter().position(|b| *b == b'\n')?;
    let header = str::from_utf8(bytes.split_off(..end)?).ok()?;
    bytes.split_off_first()?;
    let mut words = header.split(' ');
    let case = case_by(&mut words, bytes)?;
    match words.next() {
        None => Some(case),
        Some(_) => None,
    }
}

// The case that the words say, over the bytes in front.
fn case_by<'a>(words: &mut Words, bytes: &mut &'a [u8]) -> Option<Case<'a>>
    ensures { IfSome result (λ _. length bytes.new.now ≤ length bytes.old.now) }
{
    match words.next()? {
        "cells" => Some(Case::Script(on_cells(words, bytes)?)),
        "calls" => Some(Case::Calls(on_cells(words, bytes)?)),
        "font" => Some(Case::Font(on_font(words, bytes)?)),
        _ => None,
    }
}

fn on_cells<'a>(words: &mut Words, bytes: &mut &'a [u8]) -> Option<CellsCase<'a>>
    ensures { IfSome result (λ _. length bytes.new.now ≤ length bytes.old.now) }
{
    Some(CellsCase {
        size: number(words)?,
        setting: setting_by(words)?,
        lines: take_part(words, bytes)?,
    })
}

fn on_font<'a>(words: &mut Words, bytes: &mut &'a [u8]) -> Option<FontCase<'a>>
    ensures { IfSome result (λ _. length bytes.new.now ≤ length bytes.old.now) }
{
    Some(FontCase {
        glyphs: number(words)? as usize,
        kerns: number(words)? as usize,
        tracking: integer(words.next()?.as_bytes())?,
        setting: setting_by(words)?,
        font: take_part(words, bytes)?,
        script: take_part(words, bytes)?,
    })
}

fn setting_by(words: &mut Words) -> Option<Setting> {
    Some(Setting {
        measure: number(words)?,
        breaks: words.next()?.parse().ok()?,
        room: number(words)? as usize,
    })
}

// As many bytes off the front as the next word says.
fn take_part<'a>(words: &mut Words, bytes: &mut &'a [u8]) -> Option<&'a [u8]>
    ensures { IfSome result (λ _. length bytes.new.now ≤ length bytes.old.now) }
{
    bytes.split_off(..number(words)? as usize)
}

fn number(words: &mut Words) -> Option<u32> {
    magnitude(words.next()?.as_bytes())
}
