// What holds of every sheet.
ghost use Rattle.sheet.specs.Histories.{Lawful, StaysLaid};
ghost use Rattle.sheet.specs.States.{state};

use crate::sheet::Sheet;
use metrics::measurer::Measurer;
use page::policy::Policy;

// Each call of a sheet promises that the sheet goes on following the clean one. This says what that
// comes to over any sequence of calls, and that the sheet is laid after it.
pub fn law<M: Measurer, P: Policy>(sheet: &Sheet<M, P>)
    ensures lawful { Lawful (state M.meaning M.sound P.rules sheet.now) }
    ensures laid { StaysLaid (state M.meaning M.sound P.rules sheet.now) }
{
    let _ = sheet;
}
