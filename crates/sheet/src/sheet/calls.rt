// Repainting, settling, and what a sheet shows.
ghost use Rattle.std.specs.Prelude.{◌≡◌, ◌≤◌, length, IfOk, OnErr};
ghost use Rattle.std.specs.List.{slice_get};
ghost use Rattle.std.specs.Option.{option_map};
ghost use Rattle.buffer.specs.Held.{held};
ghost use Rattle.layout.specs.Layouts.{most_rows};
ghost use Rattle.page.specs.Texts.{most_characters};
ghost use Rattle.sheet.specs.Clean.Answer.{accepted};
ghost use Rattle.sheet.specs.Clean.Call.{refresh, settle, row};
ghost use Rattle.sheet.specs.Faults.{settle_answer, row_answer};
ghost use Rattle.sheet.specs.Fitting.{fitted, within};
ghost use Rattle.sheet.specs.Histories.{Continues};
ghost use Rattle.sheet.specs.States.{state};

use super::{Sheet, Slip};
use crate::fault::{NothingOwed, RowFault};
use metrics::measurer::Measurer;
use page::policy::Policy;
use page::row::Row;
use page::text::Characters;
use reflow::repaint::Repaint;

impl<M: Measurer, P: Policy> Sheet<M, P> {
    // Has all rows painted again. It is never refused; its record takes the place of one that is owed.
    pub fn refresh(&mut self) -> Slip
        ensures follows { Continues (state M.meaning M.sound P.rules self.old) refresh accepted (state M.meaning M.sound P.rules self.new) }
        ensures counted { (state M.meaning M.sound P.rules self.new).tally ≡ (state M.meaning M.sound P.rules self.old).tally }
    {
        let rows = self.rows.len();
        self.owed = Some(Repaint {
            whole: true,
            from: 0,
            removed: rows,
            put: rows,
            broken: 0,
        });
        Slip { owes: () }
    }

    // Spends the slip of any sheet, and fills `record` with what is owed here.
    pub fn settle(&mut self, slip: Slip, record: &mut Repaint) -> Result<(), NothingOwed>
        ensures follows { Continues (state M.meaning M.sound P.rules self.old) settle (settle_answer result «record».new) (state M.meaning M.sound P.rules self.new) }
        ensures counted { (state M.meaning M.sound P.rules self.new).tally ≡ (state M.meaning M.sound P.rules self.old).tally }
        ensures kept { OnErr result («record».new ≡ «record».old) }
    {
        let Slip { owes: () } = slip;
        let owed = self.owed.take().ok_or(NothingOwed)?;
        *record = owed;
        Ok(())
    }

    // The row of that number, if `room` characters can hold it; within the text, whatever the rows are.
    pub(super) fn fitting_row(&self, number: usize, room: usize) -> Result<Row, RowFault>
        ensures value { result ≡ fitted room (option_map (within (length (held self.now.text))) (slice_get self.now.rows.rows.items number)) }
        ensures inside { IfOk result (λ r. (r.start ≤ r.end) × (r.end ≤ length (held self.now.text))) }
    {
        let row = *self.rows.as_slice().get(number).ok_or(RowFault::NoSuchRow)?;
        let end = row.end.min(self.text.len());
        let start = row.start.min(end);
        if end - start > room {
            return Err(RowFault::ShortBuffer);
        }
        Ok(Row { start, end, ..row })
    }

    // Copies the characters of a row to the front of `buffer`, and answers the row's record.
    pub fn row(&self, number: usize, buffer: &mut [u8]) -> Result<Row, RowFault>
        ensures follows { Continues (state M.meaning M.sound P.rules self.now) (row number buffer.old) (row_answer result buffer.new) (state M.meaning M.sound P.rules self.now) }
        ensures kept { OnErr result (buffer.new ≡ buffer.old) }
    {
        let row = self.fitting_row(number, buffer.len())?;
        self.text.copy_to(row.start, row.end, buffer);
        Ok(row)
    }

    // How many rows there are.
    pub fn row_count(&self) -> usize
        ensures value { result ≡ length (state M.meaning M.sound P.rules self.now).rows }
        ensures few { length (state M.meaning M.sound P.rules self.now).rows ≤ most_rows }
    {
        self.rows.len()
    }

    // How many characters there are.
    pub fn char_count(&self) -> usize
        ensures value { result ≡ length (state M.meaning M.sound P.rules self.now).text }
        ensures few { length (state M.meaning M.sound P.rules self.now).text ≤ most_characters }
    {
        self.text.len()
    }

    // The tally of the sheet's setter: what it was when the sheet was made, and one for each row broken
    // since, modulo 2^64.
    pub fn tally(&self) -> u64
        ensures { result ≡ (state M.meaning M.sound P.rules self.now).tally }
    {
        self.setter.tally
    }
}
