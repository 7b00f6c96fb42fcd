// A night, worked through.
ghost use Rattle.rows.specs.Night.{WorkedNight};

// What is heard to, what is too late and what becomes known, event by event.
pub fn worked_night()
    ensures { WorkedNight }
{}
