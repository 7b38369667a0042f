// What a script is refused for.
ghost use Rattle.std.specs.Prelude.{◌≡◌};
ghost use Rattle.script.specs.Faults.{command_told, told_words};
ghost use Rattle.script.specs.declared.fault.CommandFault.TheVariants as cause;
ghost use Rattle.sheet.specs.Faults.{replace_told};

use crate::command::NoCommand;
use crate::told::Told;
use page::measure::NoSuchMeasure;
use sheet::fault::{NothingOwed, RemeasureFault, ReplaceFault, RowFault};

// Why a line of a script is refused.
#[derive(Clone, Copy, Debug)]
pub enum CommandFault {
    NoCommand(NoCommand),
    NoMeasure(NoSuchMeasure),
    Replace(ReplaceFault),
    Remeasure(RemeasureFault),
    Settle(NothingOwed),
    Row(RowFault),
}

// A refused line, by its number.
#[derive(Clone, Copy, Debug)]
pub struct ScriptFault {
    pub line: usize,
    pub fault: CommandFault,
}

// By hand, since contracts name the variant and a derived `From` has none.
impl From<NoCommand> for CommandFault {
    ghost from_gives = { λ e r. r ≡ cause.NoCommand e };

    fn from(e: NoCommand) -> CommandFault {
        CommandFault::NoCommand(e)
    }
}

impl From<NoSuchMeasure> for CommandFault {
    ghost from_gives = { λ e r. r ≡ cause.NoMeasure e };

    fn from(e: NoSuchMeasure) -> CommandFault {
        CommandFault::NoMeasure(e)
    }
}

impl From<ReplaceFault> for CommandFault {
    ghost from_gives = { λ e r. r ≡ cause.Replace e };

    fn from(e: ReplaceFault) -> CommandFault {
        CommandFault::Replace(e)
    }
}

impl From<RemeasureFault> for CommandFault {
    ghost from_gives = { λ e r. r ≡ cause.Remeasure e };

    fn from(e: RemeasureFault) -> CommandFault {
        CommandFault::Remeasure(e)
    }
}

impl From<NothingOwed> for CommandFault {
    ghost from_gives = { λ e r. r ≡ cause.Settle e };

    fn from(e: NothingOwed) -> CommandFault {
        CommandFault::Settle(e)
    }
}

impl From<RowFault> for CommandFault {
    ghost from_gives = { λ e r. r ≡ cause.Row e };

    fn from(e: RowFault) -> CommandFault {
        CommandFault::Row(e)
    }
}

impl CommandFault {
    // Its number, and what is told besides.
    pub fn told(self) -> Told
        ensures { told_words result ≡ command_told self }
    {
        match self {
            CommandFault::NoCommand(e) => Told::Number(e.number()),
            CommandFault::NoMeasure(e) => Told::Number(e.number()),
            CommandFault::Replace(e) => replace_told(e),
            CommandFault::Remeasure(RemeasureFault::Owed) => Told::Number(1),
            CommandFault::Remeasure(RemeasureFault::TooManyRows) => Told::Number(5),
            CommandFault::Settle(NothingOwed) => Told::Number(7),
            CommandFault::Row(RowFault::NoSuchRow) => Told::Number(8),
            CommandFault::Row(RowFault::ShortBuffer) => Told::Number(9),
        }
    }
}

fn replace_told(e: ReplaceFault) -> Told
    ensures { told_words result ≡ replace_told e }
{
    match e {
        ReplaceFault::Owed => Told::Number(1),
        ReplaceFault::OutOfText => Told::Number(2),
        ReplaceFault::TooLong => Told::Number(3),
        ReplaceFault::NoGlyph(u) => Told::NoGlyph(u),
        ReplaceFault::TooManyRows => Told::Number(5),
    }
}
