// The keys that an operator presses.
ghost use Rattle.std.specs.Prelude.{◌≡◌};
ghost use Rattle.screen.specs.Views.{view};
ghost use Rattle.sheet.specs.Clean.{Making};
ghost use Rattle.sheet.specs.Histories.{Follows, History, screen_after};
ghost use Rattle.sheet.specs.States.{state};
ghost use Rattle.typing.specs.Typing.{Key, Keys};

use crate::fault::{KeyFault, Stopped};
use metrics::measurer::Measurer;
use page::policy::Policy;
use reflow::repaint::Repaint;
use screen::screen::Screen;
use sheet::sheet::Sheet;

// How many rows were broken, and how many would have been if all rows were laid anew after each
// character; both modulo 2^64, as the tally is.
#[derive(Clone, Copy, Default)]
pub struct Effort {
    pub broken: u64,
    pub anew: u64,
}

// Types a character at the end of the text, lets the screen follow, and answers how many rows were
// broken.
pub fn press<M: Measurer, P: Policy>(
    sheet: &mut Sheet<M, P>,
    screen: &mut Screen,
    c: u8,
) -> Result<u64, KeyFault>
    ensures { (k : Making) (h : History) → Follows k h (state M.meaning M.sound P.rules sheet.old) → view screen.old ≡ screen_after k h → Key k h c result (state M.meaning M.sound P.rules sheet.new) (view screen.new) }
{
    let at = sheet.char_count();
    let slip = sheet.replace(at, 0, &[c])?;
    let mut record = Repaint::default();
    sheet.settle(slip, &mut record)?;
    screen.follow(sheet, &record)?;
    Ok(record.broken)
}

// Types the characters one after another.
pub fn type_text<M: Measurer, P: Policy>(
    sheet: &mut Sheet<M, P>,
    screen: &mut Screen,
    text: &[u8],
) -> Result<Effort, Stopped>
    ensures { (k : Making) (h : History) → Follows k h (state M.meaning M.sound P.rules sheet.old) → view screen.old ≡ screen_after k h → Keys k h text.now result (state M.meaning M.sound P.rules sheet.new) (view screen.new) }
{
    let mut effort = Effort::default();
    'keys: for (place, c) in text.iter().enumerate() {
        let broken = press(sheet, screen, *c).map_err(|fault| Stopped { place, fault })?;
        effort.broken = effort.broken.wrapping_add(broken);
        effort.anew = effort.anew.wrapping_add(sheet.row_count() as u64);
    }
    Ok(effort)
}
