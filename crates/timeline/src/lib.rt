// Events in the order of time.
#![tactic(auto)]

mod events;
mod laws;
mod places;
mod ring;
mod slots;
mod spans;
#[cfg(test)]
mod tests;

pub use events::{EVENT_NUMBERS, Event};
pub use laws::{changes_hold, puts_held, puts_sort, slots_say_all};
pub use places::{NotRising, place, smaller_of};
pub use ring::{at, forget, parts, put};
pub use slots::RING_LONG;
pub use spans::{CAPACITY, Span};
