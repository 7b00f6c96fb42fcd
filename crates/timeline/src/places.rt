// Where a time belongs in a rising row of times.
ghost use Rattle.std.specs.Prelude.{◌≡◌};
ghost use Rattle.timeline.specs.Places.{place_of, refusal_number, smaller};

// The row does not rise.
#[derive(Clone, Copy, Debug, PartialEq, Eq)]
pub struct NotRising;

// The number of the refusal.
const NOT_RISING: u64 = 1;

impl From<NotRising> for u64 {
    ghost from_gives = { λ refusal number. number ≡ refusal_number refusal };

    fn from(_refusal: NotRising) -> u64 {
        NOT_RISING
    }
}

// The place of a time behind all times of the row that are not above it; refused, with 1, where the row does not rise.
// One walk for the test and the count, by what is left of the row.
pub fn place(time: u64, times: &[u64]) -> Result<u64, NotRising>
    ensures { result ≡ place_of time times.now }
{
    let mut last = 0;
    let mut count = 0;
    for t in times {
        if *t < last {
            return Err(NotRising);
        }
        if *t <= time {
            count += 1;
        }
        last = *t;
    }
    Ok(count)
}

// The smaller of two counts.
pub fn smaller_of(a: u64, b: u64) -> u64
    ensures { result ≡ smaller a b }
{
    a.min(b)
}
