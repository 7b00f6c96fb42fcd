// Which of two rows is told first.
ghost use Rattle.std.specs.Prelude.{◌≡◌};
ghost use Rattle.timeline.specs.Order.{last_of};
ghost use Rattle.rows.specs.Rows.{row_before, told_before};

use timeline::Event;

// The last event of a row, one of zeros where there is none.
pub(crate) fn last_of(row: &[Event]) -> Event
    ensures { result ≡ last_of row.now }
{
    row.last().copied().unwrap_or(Event::NOTHING)
}

// Event by event from the first.
fn row_before(a: &[Event], b: &[Event]) -> bool
    ensures { result ≡ row_before a.now b.now }
{
    for (x, y) in a.iter().zip(b) {
        if x.before(*y) {
            return true;
        }
        if y.before(*x) {
            return false;
        }
    }
    a.len() < b.len()
}

// By the last event; of the same one event by event.
pub(crate) fn told_before(a: &[Event], b: &[Event]) -> bool
    ensures { result ≡ told_before a.now b.now }
{
    let last_a = last_of(a);
    let last_b = last_of(b);
    last_a.before(last_b) || !last_b.before(last_a) && row_before(a, b)
}
