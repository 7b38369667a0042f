// Sets a text, and shows its rows and the label.
#![tactic(auto)]

use layout::edges::write_edges;
use layout::setter::Setter;
use metrics::measurer::Measurer;
use page::policy::Breaks;
use page::row::Row;
use page::text::{MAX_CHARACTERS, Text};
use preview::drawing::{Column, framed_row, unhung};
use preview::lines::{row_line, spelt};
use program::frame::print_framed;
use program::options::{from_args, input};
use program::setters::{Chosen, choose};
use program::stop::{Stop, ended};
use std::alloc::{AllocError, Global};
use std::io;
use std::process::ExitCode;

const USAGE: &str = "\
usage: label [MEASURE [FONT.afm [TRACKING [spaces|anywhere]]]] < text

Sets the text at MEASURE, 1 to 60000 (5000 if none is given), and prints for each row its
start, end, ending, width, reach and characters, and then the label.
Endings: W wrapped, C cut, N newline, E end of the text.
Without a font the text is set in cells of 500, which cover the codes 32 to 126. With one,
cells take only what the font does not cover, and TRACKING, -500 to 500, is added to each
advance after another character. Rows end after spaces, or anywhere.
A text has at most 4096 characters and 1024 rows.";

fn list(rt: &HostRuntime, text: &Text, rows: &[Row]) -> io::Result<()> {
    let heap = rt.alloc();
    for row in rows {
        let chars = spelt(heap, text.part(row.start, row.end))?;
        rt.println(row_line(heap, row, chars.as_str())?)?;
    }
    Ok(())
}

fn drawn_row<M: Measurer>(
    heap: Global,
    text: &Text,
    row: &Row,
    setter: &mut Setter<M, Breaks>,
    column: Column,
) -> Result<String, AllocError> {
    let mut edges = [0; MAX_CHARACTERS];
    write_edges(text, &mut setter.measurer, row.start, row.end, &mut edges);
    let chars = unhung(&setter.policy, text.part(row.start, row.end));
    framed_row(heap, column, setter.measure, chars, &edges)
}

fn show<M: Measurer + Drop>(
    rt: &HostRuntime,
    text: &Text,
    setter: Setter<M, Breaks>,
    column: Column,
) -> Result<(), Stop> {
    let heap = rt.alloc();
    let mut setter = setter;
    let rows = setter.set_text(heap, text)?;
    let rows = rows.as_slice();
    list(rt, text, rows)?;
    let columns = column.count(setter.measure);
    let drawn = rows
        .iter()
        .map(|row| drawn_row(heap, text, row, &mut setter, column));
    print_framed(rt, columns, drawn)?;
    Ok(())
}

fn run(rt: &HostRuntime) -> Result<(), Stop> {
    let Some(options) = from_args(rt)? else {
        rt.println(USAGE)?;
        return Ok(());
    };
    let setter = choose(rt, options)?;
    let text = Text::new(input(rt, MAX_CHARACTERS)?)?;
    match setter {
        Chosen::Cells(setter) => show(rt, &text, setter, Column::Cell),
        Chosen::Font(setter) => show(rt, &text, setter, Column::HalfCell),
    }
}

fn main(rt: HostRuntime) -> ExitCode {
    ended(&rt, "label: ", run(&rt))
}
