// The screen.
ghost use Rattle.std.specs.Prelude.{◌≡◌, ◌∷◌, IfOk, OnErr, OnOk};
ghost use Rattle.reflow.specs.Screens.{blank, followed};
ghost use Rattle.sheet.specs.Clean.{Making};
ghost use Rattle.sheet.specs.Clean.Answer.{settled};
ghost use Rattle.sheet.specs.Histories.{Event, Follows, History, Unchanged, clean_after, clean_screen, screen_after};
ghost use Rattle.sheet.specs.States.{state};
ghost use Rattle.screen.specs.Views.{view};

use crate::painting::paint_rows;
use crate::shown_row::ShownRow;
use metrics::measurer::Measurer;
use page::policy::Policy;
use reflow::repaint::Repaint;
use sheet::sheet::Sheet;
use std::alloc::{AllocError, Global};

// The rows that it shows.
#[derive(Drop)]
pub struct Screen {
    rows: Vec<ShownRow>,
}

impl Screen {
    // A screen before anything is painted: one empty row.
    pub fn new(heap: Global) -> Result<Screen, AllocError>
        ensures { IfOk result (λ s. view s ≡ blank) }
    {
        let rows = vec![in heap; ShownRow::empty(heap)]?;
        Ok(Screen { rows })
    }

    pub fn rows(&self) -> &[ShownRow]
        ensures { result.now ≡ self.now.rows.items }
    {
        self.rows.as_slice()
    }

    // Paints what the record tells, from the sheet: all rows, or those that come in place of the
    // removed ones. Where memory is wanting, the screen stays as it was.
    pub fn follow<M: Measurer, P: Policy>(
        &mut self,
        sheet: &mut Sheet<M, P>,
        record: &Repaint,
    ) -> Result<(), AllocError>
        ensures painted { (k : Making) (h : History) → Follows k h (state M.meaning M.sound P.rules sheet.old) → OnOk result (view self.new ≡ followed «record».now (clean_screen k (clean_after k h)) (view self.old)) }
        ensures shows { (k : Making) (h : History) (e : Event) → e.answer ≡ settled «record».now → Follows k (e ∷ h) (state M.meaning M.sound P.rules sheet.old) → view self.old ≡ screen_after k h → OnOk result ((view self.new ≡ screen_after k (e ∷ h)) × (view self.new ≡ clean_screen k (clean_after k (e ∷ h)))) }
        ensures kept { OnErr result (view self.new ≡ view self.old) }
        ensures same { Unchanged (state M.meaning M.sound P.rules sheet.old) (state M.meaning M.sound P.rules sheet.new) }
    {
        let shown = self.rows.len();
        let (from, removed, put) = if record.whole {
            (0, shown, sheet.row_count())
        } else {
            (record.from, record.removed, record.put)
        };
        let painted = paint_rows(*self.rows.allocator(), sheet, from, put)?;
        let start = from.min(shown);
        let end = from.saturating_add(removed).min(shown);
        let _gone = self.rows.splice(start..end, painted)?;
        Ok(())
    }
}
