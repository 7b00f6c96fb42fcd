// Which events count: all that aren't too late when one hears of them.
ghost use Rattle.std.specs.Prelude.{◌≡◌, IfOk};
ghost use Rattle.patterns.specs.Patterns.{Pattern};
ghost use Rattle.rows.specs.Known.{counted as counted_of};

use std::alloc::{AllocError, Global};
use timeline::Event;

// Of events as they came those that count, given by how much one may be late, each with its number from 0.
pub fn counted(heap: Global, late: u64, events: &[Event]) -> Result<Vec<Event>, AllocError>
    ensures { IfOk result (λ v. (p : Pattern) → p.late ≡ late → v.items ≡ counted_of p events.now) }
{
    let mut counted = Vec::new(heap);
    // A loop and no chain: each event needs the latest time so far, and a push can fail.
    let mut latest: u64 = 0;
    for (i, e) in events.iter().enumerate() {
        if e.time >= latest.saturating_sub(late) {
            counted.push(Event {
                heard: i as u64,
                ..*e
            })?;
            latest = latest.max(e.time);
        }
    }
    Ok(counted)
}
