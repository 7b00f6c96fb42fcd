// What a step is told, and what it answers.
ghost use Rattle.std.specs.Prelude.{◌≡◌};
ghost use Rattle.listener.specs.Entry.{call_number, SaysCall, refusal_number};

// One act of the listener.
#[derive(Clone, Copy, PartialEq, Eq, Debug)]
pub enum Told {
    // A row that fits: so many numbers of the lent row, each the number of an event.
    Row(u64),
    // It waits for the next event.
    Waits,
    // What came is too late, and is forgotten.
    Late,
    // Nothing more comes, and all is told.
    Over,
}

// Why there is no act.
#[derive(Clone, Copy, PartialEq, Eq, Debug)]
pub enum Refusal {
    // The slices or the kind of the call don't fit.
    Misfit,
    NoPattern,
    // It is another call's turn, the memory isn't the listener's own, or an event's numbers are too large.
    OutOfTurn,
    // More events would have to be held than there is room for.
    NoRoom,
}

impl From<Refusal> for u64 {
    ghost from_gives = { λ refusal number. number ≡ refusal_number refusal };

    fn from(refusal: Refusal) -> u64 {
        match refusal {
            Refusal::Misfit => 0,
            Refusal::NoPattern => 1,
            Refusal::OutOfTurn => 2,
            Refusal::NoRoom => 8,
        }
    }
}

// What the listener is told in one step.
#[derive(Clone, Copy, PartialEq, Eq, Debug)]
pub enum Call {
    // A pattern, its numbers in the row.
    Pattern,
    // An event: time, kind, who, value.
    Event,
    // Nothing more comes.
    End,
    // It is to go on.
    Next,
}

impl From<Call> for u64 {
    ghost from_gives = { λ call number. number ≡ call_number call };

    fn from(call: Call) -> u64 {
        match call {
            Call::Pattern => 0,
            Call::Event => 1,
            Call::End => 2,
            Call::Next => 3,
        }
    }
}

impl TryFrom<u64> for Call {
    type Error = Refusal;

    ghost try_from_gives = { SaysCall };

    fn try_from(number: u64) -> Result<Call, Refusal> {
        match number {
            0 => Ok(Call::Pattern),
            1 => Ok(Call::Event),
            2 => Ok(Call::End),
            3 => Ok(Call::Next),
            _ => Err(Refusal::Misfit),
        }
    }
}
