// Patterns and events in files: numbers of eight bytes, the low byte first.
#![tactic(auto)]

mod asking;
mod bytes;
mod complaining;
mod decoding;
mod expecting;
mod failing;
mod faults;
mod lines;
mod source;
mod text;

pub use asking::{PatternAndEvents, PatternSource, Words, asked};
pub use bytes::{NUMBER_BYTES, number, numbers};
pub use complaining::complaint;
pub use decoding::{EVENT_BYTES, Reading, cut_off, event, events, sound_event};
pub use failing::{Failed, ending, read_file, read_pattern, said, without_fault};
pub use faults::{Fault, Part, too_large};
pub use source::{Source, read};
pub use text::{Spaced, line, push_line};
