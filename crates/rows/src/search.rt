// All rows of a pattern among events in time, one row a call.
ghost use Rattle.std.specs.Prelude.{◌≡◌, ◌+◌, ◌-◌, ◌<◌, ◌≤◌, true, ◌++◌, length, nat_lt, slice_index};
ghost use Rattle.timeline.specs.Lists.{every, run};
ghost use Rattle.timeline.specs.Ring.{decode};
ghost use Rattle.patterns.specs.Kept.{kept_pattern};
ghost use Rattle.rows.specs.Held.{number_at, six_of};
ghost use Rattle.rows.specs.Finding.{to_come, behind, found_first, placed, next_found};

use crate::held::Held;
use crate::levels::{Choice, LEVELS, Search};
use patterns::Kept;
use std::array;
use timeline::Event;

// A place in the search: how many positions are chosen, and six of them, the last event's first, then the first event's, the second's, and
// so on. Behind those that are chosen stands the one to try next.
#[derive(Clone, Copy)]
pub struct Cursor {
    pub depth: usize,
    pub at: [usize; LEVELS],
}

// A row by its events' numbers, in the order of the steps, 0 behind them; and where the search goes on.
#[derive(Clone, Copy)]
pub struct Found {
    pub numbers: [u64; LEVELS],
    pub next: Cursor,
}

// The number told at a place, of a row whose last event stands first; 0 behind the row. By places, as the definition has it: a chain of the
// row's rest and its first event is shorter than six, and would be put into zeros that change.
fn number_at(row: &[Event; LEVELS], steps: usize, place: usize) -> u64
    requires few { steps ≤ 6 }
    requires within { place < 6 }
    ensures { result ≡ number_at row.now steps place }
{
    let i = place + 1;
    if i < steps {
        return row[i].heard;
    }
    if i == steps { row[0].heard } else { 0 }
}

// What is told of a whole row.
fn told(choice: &Choice, steps: usize) -> Found
    requires some { 1 ≤ steps }
    requires few { steps ≤ 6 }
    requires room { slice_index choice.now.at (steps - 1) < 18446744073709551615 }
    ensures { result ≡ record { numbers = six_of choice.now.row steps; next = behind steps choice.now.at } }
{
    let row = &choice.row;
    let mut at = choice.at;
    at[steps - 1] += 1;
    Found {
        numbers: array::from_fn(|place| number_at(row, steps, place)),
        next: Cursor {
            depth: steps - 1,
            at,
        },
    }
}

// Whether the first so many positions are below a bound.
fn all_below(at: [usize; LEVELS], many: usize, bound: usize) -> bool
    requires { many ≤ 6 }
    ensures { result ≡ every (λ j. nat_lt (slice_index at j) bound) (run 0 many) }
{
    at[..many].iter().all(|p| *p < bound)
}

// Whether a search of so many steps among so many events can be at a cursor.
fn is_placed(count: usize, upto: usize, steps: usize, cursor: Cursor) -> bool
    ensures { result ≡ placed count upto steps cursor }
{
    if steps < 1 || steps > LEVELS {
        return false;
    }
    if upto > count || cursor.depth >= steps {
        return false;
    }
    cursor.at[cursor.depth] <= upto && all_below(cursor.at, cursor.depth, upto)
}

impl Search<'_> {
    // The first row from a cursor on: the last event is chosen first, then the others from the first on, each behind the one before. A
    // search that goes back: each turn goes a level up, on at its level, or a level down, so that there is no slice and no range to run over.
    fn first_row(&self, upto: usize, cursor: Cursor) -> Option<Found>
        requires { placed (length self.now.held) upto (length (kept_pattern self.now.kept.words.now).steps) cursor ≡ true }
        ensures { result ≡ found_first self.now.held (kept_pattern self.now.kept.words.now) cursor (to_come self.now.held (kept_pattern self.now.kept.words.now) upto cursor) }
    {
        let steps = self.kept.steps();
        let mut choice = self.choice_at(cursor);
        loop {
            let depth = choice.depth;
            let end = choice.end(upto);
            if choice.at[depth] >= end {
                if depth == 0 {
                    return None;
                }
                choice.depth = depth - 1;
                choice.at[depth - 1] += 1;
                continue;
            }
            let p = self.next_asked(&choice, end);
            choice.at[depth] = p;
            if p >= end {
                continue;
            }
            choice.row[depth] = self.held.get(p);
            if !self.may_stand(&choice) {
                choice.at[depth] += 1;
            } else if depth + 1 == steps {
                return Some(told(&choice, steps));
            } else {
                choice.depth = depth + 1;
                choice.at[depth + 1] = self.level_start(&choice);
            }
        }
    }
}

// The next row after a cursor among events in the two parts of a ring, with its last event before a bound, and where the search goes on;
// None where there is no more, or where no search can be.
pub fn next_row<'a>(
    front: &'a [u64],
    back: &'a [u64],
    kept: Kept<'a>,
    upto: usize,
    cursor: Cursor,
) -> Option<Found>
    ensures { result ≡ next_found (decode front.now ++ decode back.now) (kept_pattern kept.entry.words.now) upto cursor }
{
    let search = Search {
        held: Held::over(front, back),
        kept,
    };
    if !is_placed(search.held.count(), upto, kept.steps(), cursor) {
        return None;
    }
    search.first_row(upto, cursor)
}
