// Patterns as they are typed: read, with the byte at which a text is wrong and what could have stood there, and written.
#![tactic(auto)]

mod drafts;
mod expects;
mod laws;
mod listing;
mod moves;
mod places;
mod readers;
mod reading;
mod rules;
mod slots;
mod steps;
#[cfg(test)]
mod tests;
mod typed;
mod words;
mod writing;

pub use expects::Expected;
pub use laws::{read_may_be, refused_exactly, typed_reads_back};
pub use listing::{Unread, numbers};
pub use reading::{Refusal, read};
pub use words::{Word, is_digit, is_white};
pub use writing::{Unwritten, write};
