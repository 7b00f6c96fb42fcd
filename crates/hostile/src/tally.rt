// What was answered, counted.
use crate::layout::MOST_STEPS;
use crate::mirror::{PHASES, Phase};
use crate::trying::Answer;
use listener::{Refusal, Told};
use std::fmt;
use trials::{Counts, add};

#[derive(Default, Drop)]
pub struct Tally {
    calls: u64,
    // Rows of one to six numbers.
    rows: Counts<MOST_STEPS>,
    waits: u64,
    late: u64,
    over: u64,
    misfits: u64,
    no_pattern: u64,
    out_of_turn: u64,
    no_room: u64,
    // Calls by the phase of the listener, and to a memory that isn't the listener's own.
    phases: Counts<PHASES>,
    foreign: u64,
}

impl Tally {
    pub fn count_call(&mut self, standing: Option<Phase>) {
        add(&mut self.calls, 1);
        match standing {
            Some(phase) => self.phases.add(phase as usize, 1),
            None => add(&mut self.foreign, 1),
        }
    }

    pub fn count_answer(&mut self, told: Answer) {
        match told {
            Ok(Told::Row(many)) => self.rows.add((many as usize).saturating_sub(1), 1),
            Ok(Told::Waits) => add(&mut self.waits, 1),
            Ok(Told::Late) => add(&mut self.late, 1),
            Ok(Told::Over) => add(&mut self.over, 1),
            Err(Refusal::Misfit) => add(&mut self.misfits, 1),
            Err(Refusal::NoPattern) => add(&mut self.no_pattern, 1),
            Err(Refusal::OutOfTurn) => add(&mut self.out_of_turn, 1),
            Err(Refusal::NoRoom) => add(&mut self.no_room, 1),
        }
    }
}

impl fmt::Display for Tally {
    fn fmt<W: fmt::Write>(&self, f: &mut fmt::Formatter<W>) -> fmt::Result {
        write!(f, "{} calls: nothing wrong", self.calls)?;
        write!(
            f,
            "\nrows of one to six numbers:{}; waits {}, late {}, over {}",
            self.rows, self.waits, self.late, self.over
        )?;
        write!(
            f,
            "\nrefused: 0 misfit {}, 1 no pattern {}, 2 out of turn {}, 8 no room {}",
            self.misfits, self.no_pattern, self.out_of_turn, self.no_room
        )?;
        write!(
            f,
            "\ncalls while new, waiting, telling, ending, over, and to no memory of its own:{} {}",
            self.phases, self.foreign
        )
    }
}
