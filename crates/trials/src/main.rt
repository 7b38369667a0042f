// Runs many cases, one after another, and prints what came of each.
#![tactic(auto)]

use std::io;
use std::io::Read;
use std::process::ExitCode;

mod calls;
mod case;
mod outcome;
mod stop;

use crate::case::Cases;
use crate::outcome::print_outcome;

fn run(rt: &HostRuntime) -> io::Result<()> {
    let mut bytes = Vec::new(rt.alloc());
    rt.stdin().read_to_end(&mut bytes)?;
    // each case has at least one byte
    for (number, case) in (1..=bytes.len()).zip(Cases::new(&bytes)) {
        match case {
            Ok(case) => {
                println!(rt; "case {number}")?;
                print_outcome(rt, &case)?;
            }
            Err(_) => println!(rt; "case {number}: unreadable")?,
        }
    }
    Ok(())
}

fn main(rt: HostRuntime) -> ExitCode {
    match run(&rt) {
        Ok(()) => ExitCode::SUCCESS,
        Err(_) => ExitCode::FAILURE,
    }
}
