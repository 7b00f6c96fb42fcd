// Laws of the ring: each does nothing, and what it ensures holds.
ghost use Rattle.timeline.specs.Changes.{ChangesHold, PutsSort, PutsHeld, SlotsSayAll};

pub fn changes_hold()
    ensures { ChangesHold }
{}

pub fn puts_sort()
    ensures { PutsSort }
{}

pub fn puts_held()
    ensures { PutsHeld }
{}

pub fn slots_say_all()
    ensures { SlotsSayAll }
{}
