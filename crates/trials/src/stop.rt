// What ends a case before its end.
use afm::fault::AfmFault;
use metrics::fault::OutOfRange;
use page::measure::NoSuchMeasure;
use runner::fault::ListFull;
use std::alloc::AllocError;
use std::io;
use thiserror::Error;

// A refusal is printed by its number, and the line that it tells.
#[derive(Debug, Drop, Error)]
pub enum Stop {
    // a stream cannot be read or written
    #[error(transparent)]
    Io(#[from] io::Error),
    #[error(transparent)]
    Memory(#[from] AllocError),
    #[error("{}", .0.number())]
    OutOfRange(#[from] OutOfRange),
    #[error("{}", .0.number())]
    NoMeasure(#[from] NoSuchMeasure),
    #[error("{} {}", .0.number(), .0.line())]
    Font(#[from] AfmFault),
    #[error("{} {}", .0.number(), .0.line)]
    Full(#[from] ListFull),
}
