// The runs of scripts.
ghost use Rattle.std.specs.Prelude.{◌≡◌};
ghost use Rattle.listing.specs.Writers.{written, room};
ghost use Rattle.runner.specs.Answers.{Took, outcome_words, Ran};
ghost use Rattle.runner.specs.Runs.{line_step, run_script};
ghost use Rattle.sheet.specs.Clean.{Making};
ghost use Rattle.sheet.specs.Histories.{Follows, History, clean_after};
ghost use Rattle.sheet.specs.States.{state};

use crate::carrying::carry_out;
use crate::entering::enter;
use crate::fault::ListFull;
use crate::reply::Reply;
use listing::writer::ListWriter;
use metrics::measurer::Measurer;
use page::policy::Policy;
use page::text::MAX_CHARACTERS;
use script::command::NoCommand;
use script::fault::{CommandFault, ScriptFault};
use script::lines::Lines;
use sheet::sheet::Sheet;

// The most bytes that a script has.
pub const MAX_SCRIPT: usize = 60_000;

// Carries out a line; a refusal carries the line's number.
fn run_line<M: Measurer, P: Policy>(
    number: usize,
    line: &[u8],
    sheet: &mut Sheet<M, P>,
    text: &mut [u8; MAX_CHARACTERS],
    row: &mut [u8; MAX_CHARACTERS],
) -> Result<Reply, ScriptFault>
    ensures { (k : Making) (h : History) → Follows k h (state M.meaning M.sound P.rules sheet.old) → Took k h (state M.meaning M.sound P.rules sheet.new) (line_step k (clean_after k h) line.now) number (outcome_words number result) }
{
    carry_out(line, sheet, text, row).map_err(|fault| ScriptFault {
        line: number,
        fault,
    })
}

// Runs a script on a sheet, and writes its list. Where the list has no room for an entry, the run
// ends; the entries before it stand.
pub fn run<M: Measurer, P: Policy>(
    script: &[u8],
    sheet: &mut Sheet<M, P>,
    list: &mut ListWriter,
) -> Result<(), ListFull>
    ensures lender { list.new.buffer.ghost_name ≡ list.old.buffer.ghost_name }
    ensures room { room list.new ≡ room list.old }
    ensures ran { (k : Making) (h : History) → Follows k h (state M.meaning M.sound P.rules sheet.old) → Ran k h (state M.meaning M.sound P.rules sheet.new) (run_script k (room list.old) (written list.old) (clean_after k h) script.now) result (written list.new) }
{
    if script.len() > MAX_SCRIPT {
        let fault = ScriptFault {
            line: 0,
            fault: CommandFault::NoCommand(NoCommand),
        };
        return enter(list, 0, Err(fault)).map_err(|_| ListFull { line: 0 });
    }
    // Room for what a line puts in and for a row's characters, once for the whole run: no heap is asked.
    let mut text = [0; MAX_CHARACTERS];
    let mut row = [0; MAX_CHARACTERS];
    'lines: for (before, line) in Lines::new(script).enumerate() {
        let number = before + 1;
        let reply = run_line(number, line, sheet, &mut text, &mut row);
        enter(list, number, reply).map_err(|_| ListFull { line: number })?;
    }
    Ok(())
}
