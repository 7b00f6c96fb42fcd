// Which slots of a ring are held.
ghost use Rattle.std.specs.Prelude.{◌≡◌, ◌<◌, ◌≤◌, ◌&&◌, is_some, IfSome, nat_le, nat_lt};
ghost use Rattle.timeline.specs.Ring.{capacity};

// How many slots a ring has.
pub const CAPACITY: usize = 16384;

// So many slots from one on, counted round.
#[derive(Clone, Copy)]
pub struct Span {
    pub start: usize,
    pub len: usize,
    ghost ok: { (start < capacity) × (len ≤ capacity) },
}

impl Span {
    // None where a ring has no such slots.
    pub fn new(start: usize, len: usize) -> Option<Span>
        ensures test { is_some result ≡ (nat_lt start capacity && nat_le len capacity) }
        ensures start { IfSome result (λ s. s.start ≡ start) }
        ensures len { IfSome result (λ s. s.len ≡ len) }
    {
        // The test stands in front of the value, since what is made must have `ok`: `then_some` would make it first.
        if start < CAPACITY && len <= CAPACITY {
            Some(Span { start, len })
        } else {
            None
        }
    }

    // No slot, at the beginning of a ring.
    pub fn empty() -> Span
        ensures start { result.start ≡ 0 }
        ensures len { result.len ≡ 0 }
    {
        Span { start: 0, len: 0 }
    }
}
