// Runs a script on a sheet, and prints its list.
#![tactic(auto)]

use layout::setter::Setter;
use listing::writer::ListWriter;
use metrics::measurer::Measurer;
use page::policy::Breaks;
use program::options::{all_or_none, input};
use program::setters::{Chosen, choose};
use program::stop::{Stop, ended};
use runner::replay::replay;
use runner::run::MAX_SCRIPT;
use std::io::Write;
use std::process::ExitCode;

const USAGE: &str = "\
usage: replay [FONT.afm MEASURE TRACKING spaces|anywhere] < script

Runs a script on a sheet and prints its list: a line for each line of the script.
    R at del text   puts the text in place of del characters at a place
    M measure       sets the measure, 1 to 60000
    F               paints all rows again
    S row           shows a row: k = start end letter width reach
In a text \\n is a newline and \\\\ a backslash. A change prints k whole from removed put broken rows,
a refusal k ! number. Without arguments the sheet has cells of 500, spaces and measure 5000; with
them a font over cells of 500, and TRACKING, -500 to 500, between characters.";

// How many bytes a list may have.
const ROOM: usize = 60_000;

fn list<M: Measurer + Drop>(rt: &HostRuntime, setter: Setter<M, Breaks>) -> Result<(), Stop> {
    let heap = rt.alloc();
    let script = input(rt, MAX_SCRIPT)?;
    let mut buffer = vec![in heap; 0; ROOM]?;
    let mut list = ListWriter::new(&mut buffer);
    let ended = replay(heap, setter, &script, &mut list);
    rt.stdout().write_all(list.written())?;
    Ok(ended?)
}

fn show(rt: &HostRuntime) -> Result<(), Stop> {
    let Some(options) = all_or_none(rt)? else {
        rt.println(USAGE)?;
        return Ok(());
    };
    match choose(rt, options)? {
        Chosen::Cells(setter) => list(rt, setter),
        Chosen::Font(setter) => list(rt, setter),
    }
}

fn main(rt: HostRuntime) -> ExitCode {
    ended(&rt, "replay: ", show(&rt))
}
