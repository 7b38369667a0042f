// Carries out the lines of a script on a sheet.
ghost use Rattle.std.specs.Prelude.{ℕ};
ghost use Rattle.runner.specs.Answers.{Took, answer_words};
ghost use Rattle.runner.specs.Runs.{line_step};
ghost use Rattle.sheet.specs.Clean.{Making, settle_step};
ghost use Rattle.sheet.specs.Histories.{Follows, History, clean_after};
ghost use Rattle.sheet.specs.States.{state};

use crate::reply::Reply;
use metrics::measurer::Measurer;
use page::measure::Measure;
use page::policy::Policy;
use page::text::MAX_CHARACTERS;
use reflow::repaint::Repaint;
use script::command::{Command, read_command};
use script::fault::CommandFault;
use sheet::sheet::{Sheet, Slip};

// Settles a change, and says what to paint again.
fn settle<M: Measurer, P: Policy>(
    sheet: &mut Sheet<M, P>,
    slip: Slip,
) -> Result<Reply, CommandFault>
    ensures { (k : Making) (h : History) (n : ℕ) → Follows k h (state M.meaning M.sound P.rules sheet.old) → Took k h (state M.meaning M.sound P.rules sheet.new) (settle_step (clean_after k h)) n (answer_words n result) }
{
    let mut record = Repaint::default();
    sheet.settle(slip, &mut record)?;
    Ok(Reply::Painted {
        record,
        rows: sheet.row_count(),
    })
}

// Carries out a line. An accepted change is settled straight after. `text` has room for what a line
// inserts, `row` for the characters of a row.
pub(crate) fn carry_out<M: Measurer, P: Policy>(
    line: &[u8],
    sheet: &mut Sheet<M, P>,
    text: &mut [u8; MAX_CHARACTERS],
    row: &mut [u8; MAX_CHARACTERS],
) -> Result<Reply, CommandFault>
    ensures { (k : Making) (h : History) (n : ℕ) → Follows k h (state M.meaning M.sound P.rules sheet.old) → Took k h (state M.meaning M.sound P.rules sheet.new) (line_step k (clean_after k h) line.now) n (answer_words n result) }
{
    match read_command(line, text)? {
        Command::Replace { at, del, text } => {
            let slip = sheet.replace(at, del, text)?;
            settle(sheet, slip)
        }
        Command::Measure { units } => {
            let slip = sheet.remeasure(Measure::new(units)?)?;
            settle(sheet, slip)
        }
        Command::Refresh => {
            let slip = sheet.refresh();
            settle(sheet, slip)
        }
        Command::Show { row: number } => Ok(Reply::Shown(sheet.row(number, row)?)),
    }
}
