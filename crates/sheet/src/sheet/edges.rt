// The edges of a row's characters.
ghost use Rattle.std.specs.Prelude.{◌≡◌, OnErr};
ghost use Rattle.sheet.specs.Clean.{Making};
ghost use Rattle.sheet.specs.Edges.{edges_step};
ghost use Rattle.sheet.specs.Faults.{row_answer};
ghost use Rattle.sheet.specs.Histories.{Follows, History, Unchanged, clean_after};
ghost use Rattle.sheet.specs.States.{state};

use super::Sheet;
use crate::fault::RowFault;
use layout::edges::write_edges;
use metrics::measurer::Measurer;
use page::policy::Policy;
use page::row::Row;

impl<M: Measurer, P: Policy> Sheet<M, P> {
    // Writes the edge behind each character of a row to the front of `edges`, and answers the row's
    // record.
    pub fn edges(&mut self, number: usize, edges: &mut [u32]) -> Result<Row, RowFault>
        ensures same { Unchanged (state M.meaning M.sound P.rules self.old) (state M.meaning M.sound P.rules self.new) }
        ensures text { self.new.text ≡ self.old.text }
        ensures rows { self.new.rows ≡ self.old.rows }
        ensures value { (k : Making) (h : History) → Follows k h (state M.meaning M.sound P.rules self.old) → row_answer result edges.new ≡ edges_step k (clean_after k h) number edges.old }
        ensures kept { OnErr result ((edges.new ≡ edges.old) × (self.new ≡ self.old)) }
    {
        let row = self.fitting_row(number, edges.len())?;
        write_edges(
            &self.text,
            &mut self.setter.measurer,
            row.start,
            row.end,
            edges,
        );
        Ok(row)
    }
}
