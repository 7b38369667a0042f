// Sheets, tried on edits that were worked out by hand.
#![tactic(auto)]

use metrics::measurer::Measurer;
use page::policy::Policy;
use reflow::repaint::Repaint;
use sheet::sheet::{Sheet, Slip};

#[cfg(test)]
mod tests;

// What is owed, once the slip for it is spent.
pub fn settled<M: Measurer, P: Policy>(sheet: &mut Sheet<M, P>, slip: Slip) -> Option<Repaint> {
    let mut record = Repaint::default();
    sheet.settle(slip, &mut record).ok().map(|()| record)
}
