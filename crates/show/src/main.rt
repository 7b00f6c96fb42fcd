// show [-t | -e] PATTERN: a pattern as text, with names of its own.
#![tactic(auto)]

#[cfg(test)]
mod tests;

use files::{Failed, PatternSource, asked, ending, said};
use std::process::ExitCode;
use syntax::{Unwritten, write};

const PROGRAM: &str = "show";

fn run(rt: &HostRuntime) -> Result<(), Failed> {
    let pattern: PatternSource = asked(rt, PROGRAM)?;
    let row = pattern.read(rt)?;
    match write(rt.alloc(), &row) {
        Ok(text) => {
            rt.println(text)?;
            Ok(())
        }
        Err(Unwritten::NoPattern) => Err(said(rt, PROGRAM, &"the numbers are no pattern")),
        Err(Unwritten::NoMemory) => Err(Failed::Memory),
    }
}

fn main(rt: HostRuntime) -> ExitCode {
    ending(&rt, PROGRAM, run(&rt))
}
