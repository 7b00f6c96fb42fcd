// The laws of rows, each owed by a small function: theorems about the definitions alone, for every pattern and all events.
ghost use Rattle.rows.specs.Laws.{KnownStays, SortedRight, ToldOnce, HeldEnough, Grows};
ghost use Rattle.rows.specs.Newly.{NewlyHeld, EndsHeld, HeldLater, NeverStale};
ghost use Rattle.rows.specs.Fitting.{AllThatFit, NoRowTwice};
ghost use Rattle.rows.specs.Sorted.{SortedRises, SortedKeeps, SortedAnyWay, Renumbered, Neighbours};

// What is known stays known, and comes first.
pub fn known_stays()
    ensures { KnownStays }
{}

// Which of two events is put in order first doesn't matter.
pub fn sorted_right()
    ensures { SortedRight }
{}

// Rows are told in order, each once.
pub fn told_once()
    ensures { ToldOnce }
{}

// What needn't be held doesn't matter.
pub fn held_enough()
    ensures { HeldEnough }
{}

// What is heard to never falls.
pub fn grows()
    ensures { Grows }
{}

// What becomes known is found among what is held.
pub fn newly_held()
    ensures { NewlyHeld }
{}

// What is left at the end is found among what is held.
pub fn ends_held()
    ensures { EndsHeld }
{}

// What was let go is not wanted again.
pub fn held_later()
    ensures { HeldLater }
{}

// An event that isn't too late is not let go as it comes.
pub fn never_stale()
    ensures { NeverStale }
{}

// All rows of a pattern are all that fit, and no others.
pub fn all_that_fit()
    ensures { AllThatFit }
{}

// No row stands twice among them.
pub fn no_row_twice()
    ensures { NoRowTwice }
{}

// Events are put in the order of time.
pub fn sorted_rises()
    ensures { SortedRises }
{}

// They are the same ones, each as often.
pub fn sorted_keeps()
    ensures { SortedKeeps }
{}

// Whichever way they were given, they are put in one order.
pub fn sorted_any_way()
    ensures { SortedAnyWay }
{}

// Numbers matter only among events of the same time.
pub fn renumbered_rows()
    ensures { Renumbered }
{}

// Two neighbours of different times may be heard of the other way round.
pub fn neighbours()
    ensures { Neighbours }
{}
