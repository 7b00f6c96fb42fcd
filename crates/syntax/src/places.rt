// Where a reader stands in a text: at which place of the grammar, and what is under way there.
use crate::words::Word;
use patterns::{Field, Sign};

// What an item of a pattern is: each step stands behind the nevers that it must not come after.
#[derive(Clone, Copy, PartialEq, Eq, Debug)]
pub enum Role {
    Step,
    Never,
}

// The beginning of a step or a never that has a letter: what is typed of it before its tests.
#[derive(Clone, Copy)]
pub struct Head {
    pub role: Role,
    pub kind: u64,
    pub name: u8,
}

// What a number is of.
#[derive(Clone, Copy)]
pub enum Slot {
    StepKind,
    NeverKind,
    // What a field is compared with.
    Other(Head, Field, Sign),
    Window,
    // Behind the window.
    Lateness(u64),
}

// What a test awaits next.
#[derive(Clone, Copy)]
pub enum Part {
    // The name of the step or never that is tested.
    Own,
    OwnDot,
    What,
    How(Field),
    // A number, or the name of an earlier step.
    Against(Field, Sign),
    OtherDot(Field, Sign, u64),
    OtherField(Field, Sign, u64),
}

// What is awaited next.
#[derive(Clone, Copy)]
pub enum Place {
    // A kind, `not` or `within`.
    Item,
    Number(Slot),
    StepName(u64),
    // A name, or the end of a never that has none.
    NeverName(u64),
    // `where`, or the end of the item.
    Named(Head),
    Testing(Head, Part),
    // `and`, or the end of the item.
    Tested(Head),
    LateWord(u64),
    // Nothing: the pattern has its window and its lateness.
    Whole(u64, u64),
}

#[derive(Clone, Copy)]
pub enum Stand {
    At(Place),
    // In a word, with so many bytes of it read, and at a place behind it.
    Rest(Word, usize, Place),
    // In a number.
    Digits(Slot, u64),
}
