// hostile SEED COUNT: calls the listener so many times with garbage, in turn and out of turn, and holds its answer and its memory to a
// second account of them.
#![tactic(auto)]

mod calls;
mod expecting;
mod harming;
mod judging;
mod layout;
mod mirror;
mod tally;
mod trying;

use calls::{Maker, Trial};
use files::{Failed, Spaced, ending};
use harming::Pair;
use layout::WITHIN;
use listener::MEMORY_LONG;
use std::fmt;
use std::process::ExitCode;
use tally::Tally;
use trials::numbers;
use trying::{Stop, tried};

// What a call is made with, and how the memory begins then; the rest of the memory follows from the seed.
#[derive(Drop)]
struct Attempt {
    trial: Trial,
    front: Vec<u64>,
}

impl fmt::Display for Attempt {
    fn fmt<W: fmt::Write>(&self, f: &mut fmt::Formatter<W>) -> fmt::Result {
        write!(f, "the memory began: {}", Spaced(&self.front))?;
        write!(f, "\nkind: {}", self.trial.kind)?;
        write!(f, "\nrow: {}", Spaced(&self.trial.row))?;
        write!(f, "\nlent row: {}", Spaced(&self.trial.out))
    }
}

fn run(rt: &HostRuntime, seed: u64, count: u64) -> Result<(), Failed> {
    let heap = rt.alloc();
    let mut maker = Maker::new(heap, seed);
    let mut pair = Pair::new(heap)?;
    let mut tally = Tally::default();
    for number in 0..count {
        pair.prepare(&mut maker.random);
        let attempt = Attempt {
            trial: maker.trial(&pair.mirror)?,
            front: pair
                .mirror
                .words
                .iter()
                .take(WITHIN)
                .copied()
                .collect(heap)?,
        };
        tally.count_call(pair.mirror.standing());
        match tried(heap, &mut pair, &attempt.trial, number) {
            Ok(told) => tally.count_answer(told),
            Err(Stop::Memory(e)) => return Err(Failed::from(e)),
            Err(Stop::Wrong(wrong)) => {
                println!(rt; "seed {seed}, call {number}: {wrong}\n{attempt}")?;
                return Err(Failed::Said);
            }
        }
    }
    if let Err(wrong) = pair.mirror.same(&pair.memory, MEMORY_LONG) {
        println!(rt; "seed {seed}, after the last call: {wrong}")?;
        return Err(Failed::Said);
    }
    println!(rt; "{tally}")?;
    Ok(())
}

fn run_on_arguments(rt: &HostRuntime) -> Result<(), Failed> {
    let [seed, count, ..] = *numbers(rt)?.as_slice() else {
        eprintln!(rt; "usage: hostile SEED COUNT")?;
        return Err(Failed::Said);
    };
    run(rt, seed, count)
}

fn main(rt: HostRuntime) -> ExitCode {
    ending(&rt, "hostile", run_on_arguments(&rt))
}
