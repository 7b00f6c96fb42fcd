// Numbers: which may stand where, digit by digit, and what follows when one is whole.
ghost use Rattle.std.specs.Prelude.{◌≡◌, true};
ghost use Rattle.syntax.specs.Words.{digit};
ghost use Rattle.syntax.specs.Rules.{slot_of, limit, counted, numbered};

use crate::moves::Move;
use crate::places::{Part, Place, Slot, Stand};
use patterns::Comparison;
use patterns::layout::{KINDS, MOST_STEPS, NUMBERS, TIMES};

impl Slot {
    // Its numbers are below this.
    fn limit(self) -> u64
        ensures { result ≡ limit self }
    {
        match self {
            Slot::StepKind | Slot::NeverKind => KINDS,
            Slot::Other(_, _, _) => NUMBERS,
            Slot::Window | Slot::Lateness(_) => TIMES,
        }
    }

    // A digit behind a number so far.
    pub fn counted(self, so_far: u64, byte: u8) -> Option<Move>
        requires { digit byte ≡ true }
        ensures { result ≡ counted self so_far byte }
    {
        let digit = u64::from(byte - b'0');
        let value = so_far.checked_mul(10)?.checked_add(digit)?;
        if value >= self.limit() {
            return None;
        }
        Some(Move::to(Stand::Digits(self, value)))
    }

    // A number is whole.
    pub fn numbered(self, value: u64) -> Move
        ensures { result ≡ numbered self value }
    {
        match self {
            Slot::StepKind => Move::to(Stand::At(Place::StepName(value))),
            Slot::NeverKind => Move::to(Stand::At(Place::NeverName(value))),
            Slot::Other(head, what, sign) => Move::adding(
                Comparison {
                    what,
                    sign,
                    step: None,
                    other: value,
                },
                Stand::At(Place::Tested(head)),
            ),
            Slot::Window => Move::to(Stand::At(Place::LateWord(value))),
            Slot::Lateness(window) => Move::to(Stand::At(Place::Whole(window, value))),
        }
    }
}

impl Place {
    // Which number may stand here, where so many steps are whole.
    pub fn slot(self, steps: usize) -> Option<Slot>
        ensures { result ≡ slot_of self steps }
    {
        match self {
            Place::Item if steps < MOST_STEPS => Some(Slot::StepKind),
            Place::Number(slot) => Some(slot),
            Place::Testing(head, Part::Against(what, sign)) => Some(Slot::Other(head, what, sign)),
            _ => None,
        }
    }
}
