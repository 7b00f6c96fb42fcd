// Moves of a reader: where it stands next, and what it adds to the pattern that is read.
ghost use Rattle.std.specs.Prelude.{◌≡◌};
ghost use Rattle.syntax.specs.Rules.{goes, spells, adds, ends, ended};

use crate::places::{Head, Place, Role, Stand};
use crate::words::Word;
use patterns::Comparison;

// What is added to the pattern that is read.
#[derive(Clone, Copy)]
pub enum Act {
    Nothing,
    Test(Comparison),
    // A step is whole: its kind, and its letter.
    EndStep(u64, u8),
    // A never is whole: its kind.
    EndNever(u64),
}

#[derive(Clone, Copy)]
pub struct Move {
    pub stand: Stand,
    pub act: Act,
}

impl Move {
    // Nothing is added.
    pub fn to(stand: Stand) -> Move
        ensures { result ≡ goes stand }
    {
        Move {
            stand,
            act: Act::Nothing,
        }
    }

    // Behind a word of which the first byte is read.
    pub fn spelling(word: Word, place: Place) -> Move
        ensures { result ≡ spells word place }
    {
        Move::to(Stand::Rest(word, 1, place))
    }

    // A step or a never is whole.
    pub fn ending(act: Act) -> Move
        ensures { result ≡ ends act }
    {
        Move {
            stand: Stand::At(Place::Item),
            act,
        }
    }

    // A test is whole.
    pub fn adding(test: Comparison, stand: Stand) -> Move
        ensures { result ≡ adds test stand }
    {
        Move {
            stand,
            act: Act::Test(test),
        }
    }
}

impl Head {
    // What its end adds.
    pub fn end(self) -> Act
        ensures { result ≡ ended self }
    {
        match self.role {
            Role::Step => Act::EndStep(self.kind, self.name),
            Role::Never => Act::EndNever(self.kind),
        }
    }
}
