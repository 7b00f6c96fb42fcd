// compare SEED COUNT [CASE]: the listener beside two other ways to know what it has to tell, on random patterns and events: so many cases,
// from a case on or from the first.
#![tactic(auto)]

mod comparing;
mod difference;
mod knowing;
mod listening;
mod making;
mod meaning;
mod said;
mod shapes;
mod tally;
mod world;

use comparing::Stop;
use files::{Failed, ending};
use listening::Listening;
use making::Case;
use std::process::ExitCode;
use tally::Tally;
use trials::numbers;

// Which cases are gone through.
#[derive(Clone, Copy)]
struct Task {
    seed: u64,
    count: u64,
    first: u64,
}

fn run(rt: &HostRuntime, task: Task) -> Result<(), Failed> {
    let heap = rt.alloc();
    let mut listening = Listening::new(heap)?;
    let mut tally = Tally::default();
    for i in 0..task.count {
        let case = Case::make(heap, task.seed, task.first.saturating_add(i))?;
        match case.compare(&mut listening, &mut tally) {
            Ok(()) => (),
            Err(Stop::Memory(_) | Stop::Finder) => return Err(Failed::Memory),
            Err(Stop::Differs(difference)) => {
                println!(rt; "{case}\n{difference}")?;
                return Err(Failed::Said);
            }
        }
    }
    println!(rt; "{tally}")?;
    Ok(())
}

fn run_on_arguments(rt: &HostRuntime) -> Result<(), Failed> {
    let (seed, count, first) = match *numbers(rt)?.as_slice() {
        [seed, count] => (seed, count, 0),
        [seed, count, first, ..] => (seed, count, first),
        _ => {
            eprintln!(rt; "usage: compare SEED COUNT [CASE]")?;
            return Err(Failed::Said);
        }
    };
    run(rt, Task { seed, count, first })
}

fn main(rt: HostRuntime) -> ExitCode {
    ending(&rt, "compare", run_on_arguments(&rt))
}
