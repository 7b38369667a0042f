// Scripts run from the start, each on a sheet of its own.
ghost use Rattle.std.specs.Prelude.{◌≡◌};
ghost use Rattle.layout.specs.Styles.{style};
ghost use Rattle.listing.specs.Writers.{written, room};
ghost use Rattle.runner.specs.Replays.{Replayed};
ghost use Rattle.runner.specs.declared.replay.ReplayFault.TheVariants as cause;

use crate::fault::ListFull;
use crate::run::run;
use layout::setter::Setter;
use listing::writer::ListWriter;
use metrics::measurer::Measurer;
use page::policy::Policy;
use sheet::sheet::Sheet;
use std::alloc::{AllocError, Global};

// Why a script is not run to its end.
#[derive(Clone, Copy, Debug)]
pub enum ReplayFault {
    // there is no memory for the sheet
    Memory,
    Full(ListFull),
}

// By hand: a derived `From` would not say which variant `?` makes, and the contract of `replay` does.
impl From<AllocError> for ReplayFault {
    ghost from_gives = { λ _ r. r ≡ cause.Memory };

    fn from(_e: AllocError) -> ReplayFault {
        ReplayFault::Memory
    }
}

impl From<ListFull> for ReplayFault {
    ghost from_gives = { λ e r. r ≡ cause.Full e };

    fn from(e: ListFull) -> ReplayFault {
        ReplayFault::Full(e)
    }
}

// Runs a script on a new sheet, and writes its list.
pub fn replay<M: Measurer + Drop, P: Policy + Drop>(
    heap: Global,
    setter: Setter<M, P>,
    script: &[u8],
    list: &mut ListWriter,
) -> Result<(), ReplayFault>
    ensures lender { list.new.buffer.ghost_name ≡ list.old.buffer.ghost_name }
    ensures room { room list.new ≡ room list.old }
    ensures ran { M.sound setter.measurer → Replayed (style M.meaning P.rules setter) (room list.old) (written list.old) script.now result (written list.new) }
{
    let mut sheet = Sheet::new(heap, setter)?;
    run(script, &mut sheet, list)?;
    Ok(())
}
