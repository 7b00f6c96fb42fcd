// batch [-t | -e] PATTERN EVENTS: all rows of a pattern among the events that count, found by looking through everything.
#![tactic(auto)]

use files::{Failed, PatternAndEvents, Spaced, asked, ending, read_file, without_fault};
use rows::{FindError, find_counted};
use std::process::ExitCode;
use timeline::Event;

const PROGRAM: &str = "batch";

// A line for each row.
fn print_rows(rt: &HostRuntime, row: &[u64], events: &[Event]) -> Result<(), Failed> {
    match find_counted(rt.alloc(), row, events) {
        Ok(rows) => {
            for numbers in &rows {
                rt.println(Spaced(numbers))?;
            }
            Ok(())
        }
        Err(FindError::NoPattern) => {
            println!(rt; "refused 1")?;
            Err(Failed::Said)
        }
        Err(FindError::Memory) => Err(Failed::Memory),
    }
}

// What stands in front of a fault in the events' file is told before the fault is.
fn run(rt: &HostRuntime) -> Result<(), Failed> {
    let PatternAndEvents { pattern, events } = asked(rt, PROGRAM)?;
    let row = pattern.read(rt)?;
    let bytes = read_file(rt, events.as_str())?;
    let reading = files::events(rt.alloc(), &bytes)?;
    print_rows(rt, &row, &reading.events)?;
    without_fault(rt, events.as_str(), reading.fault)
}

fn main(rt: HostRuntime) -> ExitCode {
    ending(&rt, PROGRAM, run(&rt))
}
