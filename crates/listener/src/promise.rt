// What the listener promises, owed by a function.
ghost use Rattle.listener.specs.Promise.{Whole};
ghost use Rattle.listener.specs.Machine.{own};
ghost use Rattle.listener.specs.Story.{ToldWhatIsKnown, ToldAll, HoldsJust, FullExactly};

// For every pattern and whatever comes, in any order: the memory never grows, every pattern is waited with and what is none is refused; of
// each event it is said that it is too late, or the rows that are known now and weren't are told, in order; want of room is said only where
// more than 8,192 events have to be held; and at the end all that is left is told.
pub fn keeps_its_promise()
    ensures { Whole own }
{}

// Of any events during which it never refused, what was told up to any point is what was known then.
pub fn tells_what_is_known()
    ensures { ToldWhatIsKnown }
{}

// And all that was told, from the first act to the last, is exactly the rows of what counted, in their order, each once.
pub fn tells_all()
    ensures { ToldAll }
{}

// While it waits, its memory holds just what could still matter, and zeros.
pub fn holds_just()
    ensures { HoldsJust }
{}

// It refuses for want of room exactly where more than 8,192 events would have to be held.
pub fn full_exactly()
    ensures { FullExactly }
{}
