// Setting a text into rows, or saying why not.
ghost use Rattle.std.specs.Prelude.{◌≡◌, Ok, MatchResult};
ghost use Rattle.layout.specs.Settings.{setting_of, RefusalOf, Accepted, RightlyNotSet};
ghost use Rattle.layout.specs.Styles.{style};
ghost use Rattle.layout.specs.declared.setting.SetFault.TheVariants.{Refused, Memory};
ghost use Rattle.layout.specs.declared.laying.LayFault.TheVariants.{NoGlyph};

use crate::cover::{Uncovered, check_cover};
use crate::laying::LayFault;
use crate::row_list::RowList;
use crate::setter::Setter;
use metrics::measurer::Measurer;
use page::measure::Measure;
use page::policy::Policy;
use page::text::Text;
use std::alloc::{AllocError, Global};

// Why a text is not set.
#[derive(Clone, Copy, Debug)]
pub enum SetFault {
    Refused(LayFault),
    Memory,
}

// By hand, since contracts name the variant and a derived `From` has none.
impl From<Uncovered> for SetFault {
    ghost from_gives = { λ u r. r ≡ Refused (NoGlyph u) };

    fn from(u: Uncovered) -> SetFault {
        SetFault::Refused(LayFault::NoGlyph(u))
    }
}

impl From<LayFault> for SetFault {
    ghost from_gives = { λ e r. r ≡ Refused e };

    fn from(e: LayFault) -> SetFault {
        SetFault::Refused(e)
    }
}

impl From<AllocError> for SetFault {
    ghost from_gives = { λ _ r. r ≡ Memory };

    fn from(_e: AllocError) -> SetFault {
        SetFault::Memory
    }
}

impl<M: Measurer, P: Policy> Setter<M, P> {
    // The rows of a text. A character without a glyph is refused before any row is laid.
    pub fn set_text(&mut self, heap: Global, text: &Text) -> Result<RowList, SetFault>
        ensures kept { style M.meaning P.rules self.new ≡ style M.meaning P.rules self.old }
        ensures lenders { M.lenders self.new.measurer ≡ M.lenders self.old.measurer }
        ensures policy { self.new.policy ≡ self.old.policy }
        ensures counted { self.new.tally ≡ self.old.tally }
        ensures stays { M.sound self.old.measurer → M.sound self.new.measurer }
        ensures value { M.sound self.old.measurer → MatchResult result (λ l. setting_of (M.meaning self.old.measurer) (P.rules self.old.policy) self.old.measure text.now ≡ Ok l.rows.items) (RefusalOf (setting_of (M.meaning self.old.measurer) (P.rules self.old.policy) self.old.measure text.now)) }
        ensures first_fit { M.sound self.old.measurer → MatchResult result (λ l. Accepted (M.meaning self.old.measurer) (P.rules self.old.policy) self.old.measure text.now l.rows.items) (RightlyNotSet (M.meaning self.old.measurer) (P.rules self.old.policy) self.old.measure text.now) }
    {
        check_cover(&mut self.measurer, text.as_slice())?;
        let mut rows = RowList::new(heap)?;
        let before = self.tally;
        let laid = self.lay(text, &mut rows);
        // the tally is for rows that are broken one edit after another
        self.tally = before;
        laid?;
        Ok(rows)
    }
}

// The rows of a text, set with a measurer and a policy that are only lent.
pub fn set_text<M: Measurer, P: Policy>(
    heap: Global,
    text: &Text,
    measurer: &mut M,
    policy: &P,
    measure: Measure,
) -> Result<RowList, SetFault>
    ensures same { M.meaning measurer.new ≡ M.meaning measurer.old }
    ensures lenders { M.lenders measurer.new ≡ M.lenders measurer.old }
    ensures stays { M.sound measurer.old → M.sound measurer.new }
    ensures value { M.sound measurer.old → MatchResult result (λ l. setting_of (M.meaning measurer.old) (P.rules policy.now) measure text.now ≡ Ok l.rows.items) (RefusalOf (setting_of (M.meaning measurer.old) (P.rules policy.now) measure text.now)) }
    ensures first_fit { M.sound measurer.old → MatchResult result (λ l. Accepted (M.meaning measurer.old) (P.rules policy.now) measure text.now l.rows.items) (RightlyNotSet (M.meaning measurer.old) (P.rules policy.now) measure text.now) }
{
    Setter::new(measurer, policy, measure).set_text(heap, text)
}
