// What the programs of the gate that try the listener share: random numbers, counts, and the numbers that they are called with. Nothing here
// is an account of the listener or of patterns: each program has its own, so that no two of them can be wrong together.
#![tactic(auto)]

mod called;
mod counting;
mod random;
#[cfg(test)]
mod tests;

pub use called::{number, numbers};
pub use counting::{Counts, add};
pub use random::Random;
