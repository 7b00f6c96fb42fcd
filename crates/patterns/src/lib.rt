// Patterns as numbers: read, checked and kept in a fixed layout; tests and nevers tried.
#![tactic(auto)]

mod asked;
mod comparing;
mod fields;
mod keeping;
mod kept;
mod laws;
pub mod layout;
mod named;
mod reading;
#[cfg(test)]
mod tests;
mod tries;
mod views;

pub use comparing::{Comparison, number_at};
pub use fields::{Field, Sign};
pub use keeping::{Refusal, keep};
pub use kept::Kept;
pub use laws::{fits_words, reads_back};
pub use layout::PATTERN_WORDS;
pub use views::at_most;
