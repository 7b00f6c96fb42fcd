// A reader of a text: where it stands, and what it has read.
ghost use Rattle.syntax.specs.Standing.{IsSound};

use crate::drafts::{Draft, Row, put};
use crate::expects::Expected;
use crate::places::{Place, Stand};
use crate::words::is_digit;
use arrayvec::ArrayVec;

#[derive(Drop)]
pub struct Reader {
    pub stand: Stand,
    pub draft: Draft,
    // They stand for a state that is sound.
    pub ghost sound: { ∥ IsSound stand draft ∥₁ },
}

impl Reader {
    ghost use Rattle.syntax.specs.Reading.{State, settled, ready, begun};
    ghost use Rattle.syntax.specs.Sound.{Sound};
    ghost use Rattle.syntax.specs.Readers.{Stands, Stepped, Finished};

    pub fn new() -> Reader
        ensures { Stands result begun }
    {
        Reader {
            stand: Stand::At(Place::Item),
            draft: Draft::new(),
        }
    }

    // A number that is under way ends.
    fn settle(&mut self)
        ensures { (s : State) → Stands self.old s → Stands self.new (settled s) }
    {
        let step = self.stand.settle();
        self.draft.take(step.act);
        self.stand = step.stand;
    }

    // It ends before any byte that is no digit.
    fn ready(&mut self, byte: u8)
        ensures { (s : State) → Stands self.old s → Stands self.new (ready byte s) }
    {
        if !is_digit(byte) {
            self.settle();
        }
    }

    // A byte on, if a pattern may go on with it; else what could have stood there.
    pub fn read(&mut self, byte: u8) -> Result<(), Expected>
        ensures { (s : State) → Stands self.old s → Sound s → Stepped byte s self.new result }
    {
        self.ready(byte);
        let Some(step) = self.stand.step(&self.draft, byte) else {
            self.settle();
            return Err(self.stand.expected(&self.draft));
        };
        self.draft.take(step.act);
        self.stand = step.stand;
        Ok(())
    }

    // The numbers of the pattern that is read, if the text may end here.
    pub fn finish(mut self) -> Result<Row, Expected>
        ensures { (s : State) → Stands self s → Sound s → Finished s result }
    {
        self.settle();
        let Some((within, late)) = self.stand.whole() else {
            return Err(self.stand.expected(&self.draft));
        };
        let mut row = ArrayVec::new();
        put(&mut row, &[within, late, self.draft.names.len() as u64]);
        put(&mut row, self.draft.steps.as_slice());
        Ok(row)
    }
}
