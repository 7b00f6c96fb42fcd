// The listener: one step of a machine on a lent memory.
#![tactic(auto)]

mod acts;
mod entry;
mod head;
mod memory;
#[cfg(test)]
mod others;
mod promise;
#[cfg(test)]
mod tests;
mod turns;

pub use acts::{Call, Refusal, Told};
pub use entry::step;
pub use head::MEMORY_LONG;
pub use promise::{full_exactly, holds_just, keeps_its_promise, tells_all, tells_what_is_known};
