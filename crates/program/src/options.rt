// The options that the programs take, and what they read.
ghost use Rattle.std.specs.Prelude.{◌≡◌, None, pos};
ghost use Rattle.page.specs.declared.policy.Breaks.TheVariants as policy;

use crate::stop::{Misuse, Stop};
use page::policy::Breaks;
use std::io::Read;
use std::str::FromStr;
use std::{env, io};

// [MEASURE [FONT.afm [TRACKING [spaces|anywhere]]]]
#[derive(Drop)]
pub struct Options {
    pub measure: u32,
    pub font: Option<String>,
    pub tracking: i32,
    pub breaks: Breaks,
}

// Cells at measure 5,000, with rows that end after spaces.
impl Default for Options {
    ghost is_default = { λ o. o ≡ record { measure = 5000; font = None; tracking = pos 0; breaks = policy.Spaces } };

    fn default() -> Options {
        Options {
            measure: 5_000,
            font: None,
            tracking: 0,
            breaks: Breaks::Spaces,
        }
    }
}

// The options on the command line; none if help is asked for.
pub fn from_args(rt: &HostRuntime) -> Result<Option<Options>, Stop> {
    let mut args = env::args(rt)?.skip(1);
    let mut options = Options::default();
    if let Some(word) = args.next() {
        if word.as_str() == "--help" {
            return Ok(None);
        }
        options.measure = measure(word.as_str())?;
    }
    options.font = args.next();
    if let Some(word) = args.next() {
        options.tracking = tracking(word.as_str())?;
    }
    if let Some(word) = args.next() {
        options.breaks = breaks(word.as_str())?;
    }
    none_left(args.next())?;
    Ok(Some(options))
}

// FONT.afm MEASURE TRACKING spaces|anywhere, or nothing at all; none if help is asked for.
pub fn all_or_none(rt: &HostRuntime) -> Result<Option<Options>, Stop> {
    let mut args = env::args(rt)?.skip(1);
    let Some(font) = args.next() else {
        return Ok(Some(Options::default()));
    };
    if font.as_str() == "--help" {
        return Ok(None);
    }
    let mut word = || args.next().ok_or(Misuse::TooFew);
    let options = Options {
        font: Some(font),
        measure: measure(word()?.as_str())?,
        tracking: tracking(word()?.as_str())?,
        breaks: breaks(word()?.as_str())?,
    };
    none_left(args.next())?;
    Ok(Some(options))
}

// Nothing may stand behind the last option.
fn none_left(next: Option<String>) -> Result<(), Misuse> {
    match next {
        None => Ok(()),
        Some(_) => Err(Misuse::TooMany),
    }
}

fn measure(word: &str) -> Result<u32, Misuse> {
    number::<u64, u32>(word, u32::MAX).ok_or(Misuse::Measure)
}

fn tracking(word: &str) -> Result<i32, Misuse> {
    number::<i64, i32>(word, i32::MAX).ok_or(Misuse::Tracking)
}

fn breaks(word: &str) -> Result<Breaks, Misuse> {
    word.parse().map_err(|_| Misuse::Policy)
}

// A number, read as a wide one: what the narrow type cannot hold becomes `most`, which no setting takes.
fn number<W: FromStr, N: TryFrom<W> + Drop>(word: &str, most: N) -> Option<N>
where
    W::Err: Drop,
    N::Error: Drop,
{
    Some(N::try_from(word.parse::<W>().ok()?).unwrap_or(most))
}

// Standard input. One byte more than there may be is enough to see that there are too many.
pub fn input(rt: &HostRuntime, most: usize) -> io::Result<Vec<u8>> {
    let mut bytes = Vec::new(rt.alloc());
    rt.stdin()
        .take((most as u64).saturating_add(1))
        .read_to_end(&mut bytes)?;
    Ok(bytes)
}
