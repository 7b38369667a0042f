// Calls on a sheet that are not settled straight after.
use crate::stop::Stop;
use layout::setter::Setter;
use metrics::cells::Cells;
use metrics::measurer::Measurer;
use page::measure::Measure;
use page::policy::{Breaks, Spaces};
use page::row::Row;
use page::text::MAX_CHARACTERS;
use reflow::repaint::Repaint;
use script::command::{Command, read_command};
use script::fault::CommandFault;
use script::lines::Lines;
use script::told::Told;
use sheet::sheet::{Sheet, Slip};
use std::io;
use std::io::Write;

// What a call answers.
#[derive(Clone, Copy)]
enum Answer {
    Accepted,
    Settled(Repaint),
    Shown(Row),
}

// Spends the slip of a change that stays owed: `settle` takes any sheet's slip.
fn spend(other: &mut Sheet<Cells, Spaces>, slip: Slip) {
    let mut record = Repaint::default();
    let _ = other.settle(slip, &mut record);
}

// Makes the call that a line asks for. `other` is a sheet that spends the slips which `sheet` leaves
// owed, and gives the one for each settle.
fn call<M: Measurer>(
    line: &[u8],
    sheet: &mut Sheet<M, Breaks>,
    other: &mut Sheet<Cells, Spaces>,
    text: &mut [u8; MAX_CHARACTERS],
    buffer: &mut [u8],
) -> Result<Answer, CommandFault> {
    if line == b"P".as_slice() {
        let mut record = Repaint::default();
        let slip = other.refresh();
        sheet.settle(slip, &mut record)?;
        return Ok(Answer::Settled(record));
    }
    let slip = match read_command(line, text)? {
        Command::Replace { at, del, text } => sheet.replace(at, del, text)?,
        Command::Measure { units } => sheet.remeasure(Measure::new(units)?)?,
        Command::Refresh => sheet.refresh(),
        Command::Show { row } => return Ok(Answer::Shown(sheet.row(row, buffer)?)),
    };
    spend(other, slip);
    Ok(Answer::Accepted)
}

fn print_shown(rt: &HostRuntime, number: u64, row: Row, buffer: &[u8]) -> io::Result<()> {
    print!(rt;
        "{number} = {} {} {} {} {} ",
        row.start,
        row.end,
        row.ending.letter(),
        row.width,
        row.reach
    )?;
    let len = row.end.saturating_sub(row.start).min(buffer.len());
    rt.stdout().write_all(&buffer[..len])?;
    rt.println("")
}

fn print_settled(rt: &HostRuntime, number: u64, record: Repaint, rows: usize) -> io::Result<()> {
    println!(rt;
        "{number} {} {} {} {} {} {rows}",
        u8::from(record.whole),
        record.from,
        record.removed,
        record.put,
        record.broken
    )
}

fn print_fault(rt: &HostRuntime, number: u64, fault: CommandFault) -> io::Result<()> {
    match fault.told() {
        Told::Number(told) => println!(rt; "{number} ! {told}"),
        Told::NoGlyph(u) => println!(rt;
            "{number} ! {} {} {} {}",
            u.number(),
            u.offset,
            u.glyph.code,
            u.glyph.depth
        ),
    }
}

pub fn print_calls<M: Measurer + Drop>(
    rt: &HostRuntime,
    setter: Setter<M, Breaks>,
    room: usize,
    calls: &[u8],
) -> Result<(), Stop> {
    let heap = rt.alloc();
    let cells = Setter::new(Cells::new(500)?, Spaces, setter.measure);
    let mut other = Sheet::new(heap, cells)?;
    let mut sheet = Sheet::new(heap, setter)?;
    let mut text = [0; MAX_CHARACTERS];
    let mut buffer = vec![in heap; 0; room]?;
    for (number, line) in (1..u64::MAX).zip(Lines::new(calls)) {
        let rows = sheet.row_count();
        match call(line, &mut sheet, &mut other, &mut text, &mut buffer) {
            Ok(Answer::Accepted) => {
                println!(rt; "{number} accepted {}", sheet.row_count())?;
            }
            Ok(Answer::Settled(record)) => print_settled(rt, number, record, rows)?,
            Ok(Answer::Shown(row)) => print_shown(rt, number, row, &buffer)?,
            Err(fault) => print_fault(rt, number, fault)?,
        }
    }
    Ok(())
}
