// A line for each row, and the frame of the label.
ghost use Rattle.std.specs.Prelude.{◌≡◌, ◌<◌, ◌++◌, IfOk, OnOk, replicate, string_bytes};
ghost use Rattle.preview.specs.Lines.{row_line, rule_line, spelt};

use page::row::Row;
use std::alloc::{AllocError, Global};
use std::iter::repeat_n;

// The characters as text, each code read as a character of Latin-1.
pub fn spelt(heap: Global, chars: &[u8]) -> Result<String, AllocError>
    ensures { IfOk result (λ s. string_bytes s ≡ spelt chars.now) }
{
    chars.iter().map(|c| char::from(*c)).collect(heap)
}

// A row's record, and its characters.
pub fn row_line(heap: Global, row: &Row, chars: &str) -> Result<String, AllocError>
    ensures { IfOk result (λ s. string_bytes s ≡ row_line row.now chars.now) }
{
    format!(in heap;
        "{} {} {} {} {} {chars}",
        row.start,
        row.end,
        row.ending.letter(),
        row.width,
        row.reach
    )
}

// The top and the bottom of the frame.
pub fn rule_line(heap: Global, columns: usize) -> Result<String, AllocError>
    ensures { IfOk result (λ s. string_bytes s ≡ rule_line columns) }
{
    let mut line = String::from_str(heap, "+")?;
    push_times(&mut line, '-', columns)?;
    line.push('+')?;
    Ok(line)
}

// Adds a character of ASCII so many times.
pub(crate) fn push_times(line: &mut String, c: char, count: usize) -> Result<(), AllocError>
    requires { c < 128 }
    ensures { OnOk result (string_bytes line.new ≡ string_bytes line.old ++ replicate count c) }
{
    line.extend(repeat_n(c, count))
}
