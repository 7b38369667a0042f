// A reader over a lent file.
ghost use Rattle.std.specs.Prelude.{◌≤◌, length};

use crate::section::Section;

mod ends;
mod entries;
mod lines;
mod roles;
mod steps;

#[derive(Drop)]
pub(crate) struct Reader<'a> {
    file: &'a [u8],
    // the place of the next line, and how many lines are read
    at: usize,
    line: usize,
    section: Section,
    // the entry lines that the section announced, and those seen in it
    announced: usize,
    seen: usize,
    ghost inside: { at ≤ length file.now },
    ghost lines_read: { line ≤ at },
    ghost lines_seen: { seen ≤ line },
}
