// The search on small examples, resumed one call at a time.
use crate::levels::LEVELS;
use crate::*;
use patterns::{Kept, PATTERN_WORDS, keep};
use std::process::Abort;
use timeline::EVENT_NUMBERS;

// Whether just these rows are told, in this order, of events in two parts with the seam behind so many numbers.
fn tells(rt: &impl Abort, pattern: &[u64], events: &[u64], seam: usize, rows: &[[u64; LEVELS]]) {
    let seam = seam.min(events.len());
    let (front, back) = (&events[..seam], &events[seam..]);
    let mut words = [0u64; PATTERN_WORDS];
    assert!(rt; keep(pattern, &mut words).is_ok());
    let kept = Kept::over(&words).expect(rt, "a pattern's words");
    let upto = front.len() / EVENT_NUMBERS + back.len() / EVENT_NUMBERS;
    let mut cursor = Cursor {
        depth: 0,
        at: [0; LEVELS],
    };
    for row in rows {
        let found = next_row(front, back, kept, upto, cursor).expect(rt, "a row more");
        let numbers = found.numbers;
        assert_eq!(rt; numbers, *row);
        cursor = found.next;
    }
    assert!(rt; next_row(front, back, kept, upto, cursor).is_none());
}

// Rows that differ only in their first, second or third event, with the seam before, within and behind them.
#[test]
fn goes_on_where_it_was(rt: HostRuntime) {
    let pattern = [100u64, 0, 4, 1, 0, 0, 2, 0, 0, 3, 0, 0, 4, 0, 0];
    let events = [
        0u64, 10, 1, 0, 0, 1, 11, 1, 0, 0, 2, 12, 2, 0, 0, 3, 13, 2, 0, 0, 4, 14, 3, 0, 0, 5, 15,
        3, 0, 0, 6, 16, 4, 0, 0,
    ];
    let rows = [
        [0u64, 2, 4, 6, 0, 0],
        [0, 2, 5, 6, 0, 0],
        [0, 3, 4, 6, 0, 0],
        [0, 3, 5, 6, 0, 0],
        [1, 2, 4, 6, 0, 0],
        [1, 2, 5, 6, 0, 0],
        [1, 3, 4, 6, 0, 0],
        [1, 3, 5, 6, 0, 0],
    ];
    tells(&rt, &pattern, &events, 35, &rows);
    tells(&rt, &pattern, &events, 5, &rows);
    tells(&rt, &pattern, &events, 15, &rows);
    tells(&rt, &pattern, &events, 30, &rows);
    tells(&rt, &pattern, &events, 0, &rows);
}

// Six steps of equal times; at the window's edge, and one beyond it.
#[test]
fn six_steps(rt: HostRuntime) {
    let mut pattern = [
        9u64, 0, 6, 1, 0, 0, 2, 0, 0, 3, 0, 0, 4, 0, 0, 5, 0, 0, 6, 0, 0,
    ];
    let events = [
        7u64, 3, 1, 0, 0, 8, 3, 2, 0, 0, 9, 3, 3, 0, 0, 11, 3, 4, 0, 0, 12, 3, 5, 0, 0, 13, 12, 6,
        0, 0,
    ];
    tells(&rt, &pattern, &events, 10, &[[7u64, 8, 9, 11, 12, 13]]);
    pattern[0] = 8;
    tells(&rt, &pattern, &events, 10, &[]);
}

// A door, then a lamp of the same who, and never a guard between: a guard beside the row does not matter, one next to either event does.
#[test]
fn never_between(rt: HostRuntime) {
    let pattern = [60u64, 0, 2, 1, 0, 0, 2, 1, 0, 0, 1, 0, 0, 1, 3, 0];
    let calm = [
        0u64, 10, 3, 5, 0, 1, 11, 1, 7, 0, 2, 12, 1, 8, 0, 3, 13, 2, 7, 0, 4, 14, 3, 5, 0,
    ];
    tells(&rt, &pattern, &calm, 10, &[[1u64, 3, 0, 0, 0, 0]]);
    let first = [
        1u64, 11, 1, 7, 0, 2, 12, 3, 8, 0, 3, 13, 4, 7, 0, 4, 14, 2, 7, 0,
    ];
    tells(&rt, &pattern, &first, 5, &[]);
    let last = [
        1u64, 11, 1, 7, 0, 2, 12, 4, 8, 0, 3, 13, 3, 7, 0, 4, 14, 2, 7, 0,
    ];
    tells(&rt, &pattern, &last, 15, &[]);
}

// One step; fewer than five numbers at the end; a cursor and a bound that cannot be.
#[test]
fn whatever_it_is_given(rt: HostRuntime) {
    let pattern = [0u64, 0, 1, 1, 0, 0];
    let events = [
        4u64, 10, 1, 0, 0, 5, 10, 2, 0, 0, 6, 10, 1, 0, 0, 7, 11, 1, 9, 10, 1, 0, 0,
    ];
    tells(
        &rt,
        &pattern,
        &events,
        18,
        &[
            [4u64, 0, 0, 0, 0, 0],
            [6, 0, 0, 0, 0, 0],
            [9, 0, 0, 0, 0, 0],
        ],
    );
    let words = [0u64; PATTERN_WORDS];
    let kept = Kept::over(&words).expect(&rt, "a pattern's words");
    let cursor = Cursor {
        depth: 7,
        at: [9; LEVELS],
    };
    assert!(rt; next_row(&events, &[], kept, 3, cursor).is_none());
}
