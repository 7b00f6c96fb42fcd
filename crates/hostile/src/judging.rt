// Whether the listener's answer, the lent row and the memory are as they have to be.
use crate::expecting::{Expected, Search};
use crate::layout::{PLACES, UPTO};
use crate::mirror::{Mirror, Phase};
use crate::trying::Answer;
use listener::{Refusal, Told};
use thiserror::Error;

// What is wrong.
#[derive(Clone, Copy, Debug, Error)]
pub enum Wrong {
    #[error("the answer is wrong")]
    Answer,
    // A row that isn't of held events at the positions that the memory has.
    #[error("the row is none")]
    Row,
    #[error("the lent row is wrong")]
    Out,
    #[error("word {at} is {is} and has to be {right}")]
    Word { at: usize, is: u64, right: u64 },
    #[error("a memory of another length was changed")]
    Misfit,
}

// The number of a refusal, by this program's own account.
fn number_of(refusal: Refusal) -> u64 {
    match refusal {
        Refusal::Misfit => 0,
        Refusal::NoPattern => 1,
        Refusal::OutOfTurn => 2,
        Refusal::NoRoom => 8,
    }
}

// At which level of the search a step's position is chosen: the last step's first.
fn level_of(step: usize, steps: usize) -> usize {
    let next = step.saturating_add(1);
    if next == steps { 0 } else { next }
}

// The position of a step's event. The search goes on behind the one that was chosen last.
fn position_of(memory: &[u64], step: usize, steps: usize) -> Option<u64> {
    let level = level_of(step, steps);
    let place = memory.get(PLACES.saturating_add(level)).copied()?;
    if level.saturating_add(1) == steps {
        place.checked_sub(1)
    } else {
        Some(place)
    }
}

impl Mirror {
    // The event of a step of a row that was told. Of a search from its beginning it is of the step's kind, and not before a position; behind
    // one that goes on there may be garbage.
    fn number_told(&self, search: Search, step: usize, position: u64, least: u64) -> Option<u64> {
        let e = self.event(position);
        let right = match search {
            Search::Begins => position >= least && e.kind == self.kind_of(step),
            Search::GoesOn => true,
        };
        (right && position < self.get(UPTO)).then_some(e.heard)
    }

    // The lent row with a row that was told, by the positions that the memory has then.
    fn row_told(&self, search: Search, memory: &[u64], out: &mut [u64]) -> Option<()> {
        let steps = self.steps();
        let mut least = 0;
        for (step, place) in out.iter_mut().enumerate().take(steps) {
            let position = position_of(memory, step, steps)?;
            *place = self.number_told(search, step, position, least)?;
            least = position.saturating_add(1);
        }
        Some(())
    }

    // The same positions as the memory's, as many as there are levels.
    fn take_places(&mut self, memory: &[u64]) {
        if let Some(places) = memory.get(PLACES..PLACES.saturating_add(self.steps())) {
            self.lay(PLACES, places);
        }
    }

    // A row was told: what the lent row has to be then.
    fn judge_row(
        &mut self,
        search: Search,
        many: u64,
        memory: &[u64],
        out: &mut [u64],
    ) -> Result<(), Wrong> {
        if many == 0 || many != self.steps() as u64 {
            return Err(Wrong::Row);
        }
        self.row_told(search, memory, out).ok_or(Wrong::Row)?;
        self.take_places(memory);
        Ok(())
    }

    // What the lent row has to be, and the memory as far as it follows from the answer.
    pub fn judge(
        &mut self,
        expected: Result<Expected, Refusal>,
        told: Answer,
        memory: &[u64],
        out: &mut [u64],
    ) -> Result<(), Wrong> {
        match (told, expected) {
            (Ok(Told::Row(many)), Ok(Expected::RowOr(search, _))) => {
                self.judge_row(search, many, memory, out)
            }
            (Ok(Told::Waits), Ok(Expected::RowOr(_, phase @ Phase::Waiting)))
            | (Ok(Told::Over), Ok(Expected::RowOr(_, phase @ Phase::Over))) => {
                self.settle(phase);
                Ok(())
            }
            (Ok(Told::Waits), Ok(Expected::Waits)) | (Ok(Told::Late), Ok(Expected::Late)) => Ok(()),
            (Err(refusal), Err(right)) if u64::from(refusal) == number_of(right) => Ok(()),
            _ => Err(Wrong::Answer),
        }
    }

    // Whether so many words of a memory are the same as here.
    pub fn same(&self, memory: &[u64], many: usize) -> Result<(), Wrong> {
        let mut words = memory.iter().zip(self.words.iter()).take(many).enumerate();
        match words.find(|(_, (is, right))| is != right) {
            Some((at, (is, right))) => Err(Wrong::Word {
                at,
                is: *is,
                right: *right,
            }),
            None => Ok(()),
        }
    }
}
