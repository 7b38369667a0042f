// How a program stops short, in words.
ghost use Rattle.std.specs.Prelude.{◌≡◌, MatchResult};
ghost use Rattle.std.specs.Process.{exit_status};
ghost use Rattle.preview.specs.declared.words.Refusal.TheVariants.{Long, NoMeasure, Unset, Setting};
ghost use Rattle.program.specs.declared.stop.Stop.TheVariants.{Memory, Refused};

use afm::fault::{AfmFault, LineFault};
use layout::setting::SetFault;
use metrics::fault::OutOfRange;
use page::measure::NoSuchMeasure;
use page::text::TooLong;
use preview::words::Refusal;
use runner::fault::ListFull;
use runner::replay::ReplayFault;
use sheet::fault::ReplaceFault;
use std::alloc::AllocError;
use std::process::ExitCode;
use std::{fmt, io};
use thiserror::Error;
use typing::fault::{KeyFault, Stopped};

// What is wrong with a command line.
#[derive(Clone, Copy, Debug, Error)]
pub enum Misuse {
    #[error("there are more than four arguments")]
    TooMany,
    #[error("there are fewer than four arguments")]
    TooFew,
    #[error("the measure is no number")]
    Measure,
    #[error("the tracking is no number")]
    Tracking,
    #[error("rows end at 'spaces' or 'anywhere'")]
    Policy,
}

#[derive(Debug, Drop, Error)]
pub enum Stop {
    // the command line cannot be read
    #[error("{0}; --help says more")]
    Usage(#[from] Misuse),
    // a stream cannot be read or written
    #[error(transparent)]
    Input(#[from] io::Error),
    // a font file cannot be read
    #[error("{path}: {error}")]
    NoFile { path: String, error: io::Error },
    #[error("out of memory")]
    Memory,
    // the label is refused
    #[error(transparent)]
    Refused(#[from] Refusal),
    // a character is not typed
    #[error(fmt = typed)]
    Typed(#[from] Stopped),
    // a list has no room for the entry of a line
    #[error("{} {}: the list has no room for this line", .0.number(), .0.line)]
    Full(#[from] ListFull),
    // the font is refused
    #[error("{path}:{}: {}: {}", .fault.line(), .fault.number(), cause(.fault))]
    Font { path: String, fault: AfmFault },
}

impl Stop {
    // What stands before the words: a font's refusal begins with its file, any other with the program.
    pub fn prefix<'a>(&self, program: &'a str) -> &'a str {
        match self {
            Stop::Font { .. } => "",
            _ => program,
        }
    }
}

// Says on standard error why a program stops short, if it does, and answers the status that it ends
// with. The status is the same where nothing can be written there.
pub fn ended(rt: &HostRuntime, program: &str, outcome: Result<(), Stop>) -> ExitCode
    ensures { MatchResult outcome (λ _. exit_status result ≡ 0) (λ _. exit_status result ≡ 1) }
{
    let Err(stop) = outcome else {
        return ExitCode::SUCCESS;
    };
    let who = stop.prefix(program);
    let _said = eprintln!(rt; "{who}{stop}");
    ExitCode::FAILURE
}

// By hand, since the derive converts only what a variant holds as it is.
impl From<AllocError> for Stop {
    ghost from_gives = { λ _ r. r ≡ Memory };

    fn from(_e: AllocError) -> Stop {
        Stop::Memory
    }
}

impl From<SetFault> for Stop {
    ghost from_gives = { λ e r. r ≡ Refused (Unset e) };

    fn from(e: SetFault) -> Stop {
        Stop::Refused(e.into())
    }
}

impl From<TooLong> for Stop {
    ghost from_gives = { λ e r. r ≡ Refused (Long e) };

    fn from(e: TooLong) -> Stop {
        Stop::Refused(e.into())
    }
}

impl From<NoSuchMeasure> for Stop {
    ghost from_gives = { λ e r. r ≡ Refused (NoMeasure e) };

    fn from(e: NoSuchMeasure) -> Stop {
        Stop::Refused(e.into())
    }
}

impl From<OutOfRange> for Stop {
    ghost from_gives = { λ e r. r ≡ Refused (Setting e) };

    fn from(e: OutOfRange) -> Stop {
        Stop::Refused(e.into())
    }
}

impl From<ReplayFault> for Stop {
    fn from(e: ReplayFault) -> Stop {
        match e {
            ReplayFault::Memory => Stop::Memory,
            ReplayFault::Full(full) => Stop::Full(full),
        }
    }
}

// Why a character is not typed, with its place in the text.
fn typed<W: fmt::Write>(stopped: &Stopped, f: &mut fmt::Formatter<W>) -> fmt::Result {
    let Stopped { place, fault } = *stopped;
    match fault {
        KeyFault::Refused(ReplaceFault::Owed) => write!(
            f,
            "1: a repaint is owed at offset {place}"
        ),
        KeyFault::Refused(ReplaceFault::OutOfText) => write!(
            f,
            "2: offset {place} lies beyond the text"
        ),
        KeyFault::Refused(ReplaceFault::TooLong) => write!(
            f,
            "3: the text has more than 4096 characters"
        ),
        KeyFault::Refused(ReplaceFault::NoGlyph(u)) => write!(
            f,
            "4: no glyph at offset {place} for character {}, depth {}",
            u.glyph.code, u.glyph.depth
        ),
        KeyFault::Refused(ReplaceFault::TooManyRows) => write!(
            f,
            "5: with the character at offset {place} the text needs more than 1024 rows"
        ),
        KeyFault::Unsettled(_) => write!(f, "7: nothing is owed at offset {place}"),
        KeyFault::Memory => write!(f, "out of memory"),
    }
}

// Why a font is refused.
fn cause(fault: &AfmFault) -> &'static str {
    match fault {
        AfmFault::At { fault, .. } => line_cause(*fault),
        AfmFault::Over { .. } => "the file is over before EndFontMetrics",
    }
}

// What is wrong with a line of a font.
fn line_cause(fault: LineFault) -> &'static str {
    match fault {
        LineFault::Misplaced => "this line is not of its section",
        LineFault::Field => "a field is missing, misspelt or outside its range",
        LineFault::Again => "a name, a code or a pair is given again",
        LineFault::UnknownName => "no glyph has one of the pair's names",
        LineFault::NoSlot(_) => "there is no room for this entry",
        LineFault::Count => "the count is not the number of entries",
    }
}
