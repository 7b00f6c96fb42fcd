// One call of the listener, and whether it did what it has to.
use crate::calls::Trial;
use crate::harming::Pair;
use crate::judging::Wrong;
use crate::layout::RING;
use listener::{MEMORY_LONG, Refusal, Told, step};
use std::alloc::{AllocError, Global};
use thiserror::Error;

// Why it stops.
#[derive(Debug, Drop, Error)]
pub enum Stop {
    #[error(transparent)]
    Wrong(#[from] Wrong),
    #[error(transparent)]
    Memory(#[from(alloc)] AllocError),
}

// What the listener answers.
pub type Answer = Result<Told, Refusal>;

// The whole memory is looked at every so many calls, its front and the pattern after each.
const EVERY: u64 = 8;

// A memory of another length, all zeros, stays as it was.
fn tell_misfit(heap: Global, trial: &Trial, long: usize, out: &mut [u64]) -> Result<Answer, Stop> {
    let mut memory = vec![in heap; 0; long]?;
    let told = step(&mut memory, trial.kind, &trial.row, out);
    if memory.iter().any(|word| *word != 0) {
        return Err(Stop::Wrong(Wrong::Misfit));
    }
    Ok(told)
}

// What was told, where nothing is wrong.
pub fn tried(heap: Global, pair: &mut Pair, trial: &Trial, number: u64) -> Result<Answer, Stop> {
    let mut out = trial.out.clone()?;
    let told = match trial.other_memory {
        None => step(&mut pair.memory, trial.kind, &trial.row, &mut out),
        Some(long) => tell_misfit(heap, trial, long, &mut out)?,
    };
    let expected = trial
        .call()
        .and_then(|call| pair.mirror.expect(call, &trial.row));
    let mut right = trial.out.clone()?;
    pair.mirror.judge(expected, told, &pair.memory, &mut right)?;
    if out != right {
        return Err(Stop::Wrong(Wrong::Out));
    }
    let many = if number % EVERY == 0 {
        MEMORY_LONG
    } else {
        RING
    };
    pair.mirror.same(&pair.memory, many)?;
    Ok(told)
}
