// Types a text into a sheet, and shows its rows, what they cost, and the screen.
#![tactic(auto)]

use layout::setter::Setter;
use metrics::measurer::Measurer;
use page::policy::{Breaks, Policy};
use page::text::MAX_CHARACTERS;
use preview::drawing::{Column, framed_row, unhung};
use preview::lines::{row_line, spelt};
use program::frame::print_framed;
use program::options::{from_args, input};
use program::setters::{Chosen, choose};
use program::stop::{Stop, ended};
use screen::screen::Screen;
use sheet::sheet::Sheet;
use std::io;
use std::process::ExitCode;
use typing::keys::{Effort, type_text};

const USAGE: &str = "\
usage: typist [MEASURE [FONT.afm [TRACKING [spaces|anywhere]]]] < text

Types the text into a sheet one character at a time, at MEASURE, 1 to 60000 (5000 if none is
given), and lets a screen follow what the sheet says to repaint. Prints for each row its start,
end, ending, width, reach and characters; how many rows were broken, and how many would have
been if all rows were laid anew after each character; and the label as the screen shows it.
Endings: W wrapped, C cut, N newline, E end of the text.
Without a font the text is set in cells of 500, which cover the codes 32 to 126. With one,
cells take only what the font does not cover, and TRACKING, -500 to 500, is added to each
advance after another character. Rows end after spaces, or anywhere.
A text has at most 4096 characters and 1024 rows.";

fn list<M: Measurer, P: Policy>(rt: &HostRuntime, sheet: &Sheet<M, P>) -> io::Result<()> {
    let heap = rt.alloc();
    let mut chars = [0; MAX_CHARACTERS];
    for number in 0..sheet.row_count() {
        let Ok(row) = sheet.row(number, &mut chars) else {
            break;
        };
        let len = row.end.saturating_sub(row.start).min(MAX_CHARACTERS);
        let text = spelt(heap, &chars[0..len])?;
        rt.println(row_line(heap, &row, text.as_str())?)?;
    }
    Ok(())
}

fn tell(rt: &HostRuntime, effort: Effort) -> io::Result<()> {
    println!(rt;
        "rows broken: {}; if all were laid anew after each character: {}",
        effort.broken, effort.anew
    )
}

fn show<M: Measurer + Drop>(
    rt: &HostRuntime,
    text: &[u8],
    setter: Setter<M, Breaks>,
    column: Column,
) -> Result<(), Stop> {
    let heap = rt.alloc();
    let policy = setter.policy;
    let measure = setter.measure;
    let mut sheet = Sheet::new(heap, setter)?;
    let mut screen = Screen::new(heap)?;
    let effort = type_text(&mut sheet, &mut screen, text)?;
    list(rt, &sheet)?;
    tell(rt, effort)?;
    let drawn = screen.rows().iter().map(|row| {
        let chars = unhung(&policy, row.chars());
        framed_row(heap, column, measure, chars, row.edges())
    });
    print_framed(rt, column.count(measure), drawn)?;
    Ok(())
}

fn run(rt: &HostRuntime) -> Result<(), Stop> {
    let Some(options) = from_args(rt)? else {
        rt.println(USAGE)?;
        return Ok(());
    };
    let setter = choose(rt, options)?;
    let text = input(rt, MAX_CHARACTERS)?;
    match setter {
        Chosen::Cells(setter) => show(rt, &text, setter, Column::Cell),
        Chosen::Font(setter) => show(rt, &text, setter, Column::HalfCell),
    }
}

fn main(rt: HostRuntime) -> ExitCode {
    ended(&rt, "typist: ", run(&rt))
}
