// The calls that change a sheet.
ghost use Rattle.std.specs.Prelude.{◌≡◌, IfErr, OnOk};
ghost use Rattle.sheet.specs.Clean.{Making};
ghost use Rattle.sheet.specs.Clean.Call.{replace, remeasure};
ghost use Rattle.sheet.specs.Faults.{replace_answer, remeasure_answer, Early, EarlyMeasure};
ghost use Rattle.sheet.specs.Histories.{Continues, Counted, Follows, History};
ghost use Rattle.sheet.specs.States.{state};

use super::{Sheet, Slip};
use crate::fault::{RemeasureFault, ReplaceFault};
use buffer::edited_text::EditedText;
use layout::cover::check_cover;
use metrics::measurer::Measurer;
use page::measure::Measure;
use page::policy::Policy;
use page::text::{Characters, MAX_CHARACTERS};
use reflow::edit::Edit;
use reflow::relaying::relay;
use reflow::repaint::Repaint;
use std::mem::swap;

impl<M: Measurer, P: Policy> Sheet<M, P> {
    // Puts `ins` in place of the `del` characters at `at`. The text is laid as it would read, so that
    // a refusal has nothing to undo.
    pub fn replace(&mut self, at: usize, del: usize, ins: &[u8]) -> Result<Slip, ReplaceFault>
        ensures follows { Continues (state M.meaning M.sound P.rules self.old) (replace at del ins.now) (replace_answer result) (state M.meaning M.sound P.rules self.new) }
        ensures counted { (k : Making) (h : History) → Follows k h (state M.meaning M.sound P.rules self.old) → OnOk result (Counted (state M.meaning M.sound P.rules self.old) (state M.meaning M.sound P.rules self.new)) }
        ensures early { IfErr result (λ e. Early e → self.new ≡ self.old) }
    {
        if self.owed.is_some() {
            return Err(ReplaceFault::Owed);
        }
        let len = self.text.len();
        if at > len || del > len - at {
            return Err(ReplaceFault::OutOfText);
        }
        if ins.len() > MAX_CHARACTERS - (len - del) {
            return Err(ReplaceFault::TooLong);
        }
        check_cover(&mut self.setter.measurer, ins)?;
        let edit = Edit {
            at,
            del,
            ins: ins.len(),
        };
        let view = EditedText::new(&self.text, at, del, ins);
        let record = relay(
            &view,
            &mut self.setter,
            edit,
            self.rows.as_slice(),
            &mut self.spare,
        )?;
        swap(&mut self.rows, &mut self.spare);
        self.text.replace(at, del, ins);
        self.owed = Some(record);
        Ok(Slip { owes: () })
    }

    // Sets the measure, and lays the whole text again.
    pub fn remeasure(&mut self, measure: Measure) -> Result<Slip, RemeasureFault>
        ensures follows { Continues (state M.meaning M.sound P.rules self.old) (remeasure measure) (remeasure_answer result) (state M.meaning M.sound P.rules self.new) }
        ensures counted { (k : Making) (h : History) → Follows k h (state M.meaning M.sound P.rules self.old) → OnOk result (Counted (state M.meaning M.sound P.rules self.old) (state M.meaning M.sound P.rules self.new)) }
        ensures early { IfErr result (λ e. EarlyMeasure e → self.new ≡ self.old) }
    {
        if self.owed.is_some() {
            return Err(RemeasureFault::Owed);
        }
        let before = self.setter.tally;
        let old = self.setter.measure;
        self.setter.measure = measure;
        let laid = self.setter.lay(&self.text, &mut self.spare);
        // by hand, since the old measure comes back; a covered text is refused for its rows alone
        if laid.is_err() {
            self.setter.measure = old;
            return Err(RemeasureFault::TooManyRows);
        }
        swap(&mut self.rows, &mut self.spare);
        self.owed = Some(Repaint {
            whole: true,
            from: 0,
            removed: self.spare.len(),
            put: self.rows.len(),
            broken: self.setter.tally.wrapping_sub(before),
        });
        Ok(Slip { owes: () })
    }
}
