// Rows of events that fit a pattern: what they are, and how they are found.
#![tactic(auto)]

mod extension;
mod finder;
#[cfg(test)]
mod finder_tests;
mod held;
mod insertion;
mod lateness;
mod laws;
mod levels;
mod night;
mod search;
mod searched;
#[cfg(test)]
mod tests;
mod told;

pub use finder::{FindError, find_all, find_counted};
pub use lateness::counted;
pub use laws::{
    all_that_fit, ends_held, grows, held_enough, held_later, known_stays, neighbours, never_stale,
    newly_held, no_row_twice, renumbered_rows, sorted_any_way, sorted_keeps, sorted_right,
    sorted_rises, told_once,
};
pub use night::worked_night;
pub use search::{Cursor, Found, next_row};
pub use searched::{goes_on, is_over, rest_is, rows_in_order, rows_of_one};
