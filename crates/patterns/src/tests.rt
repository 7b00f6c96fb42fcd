// Patterns on small examples: each limit at its edge, the largest pattern, words of garbage, tests and nevers tried.
use crate::layout::{
    KINDS, MOST_NEVERS, MOST_STEPS, MOST_TESTS, NEVER_WORDS, NEVERS_AT, NUMBERS, STEP_WORDS,
    STEPS_AT, TESTS_AT,
};
use crate::*;
use std::array;
use std::test::Fail;
use timeline::Event;

const MOST: u64 = u64::MAX;

const TOP: u64 = NUMBERS - 1;

// Two steps: kind 1; then kind 2 with the same who and a value of 100 or more, and no kind 3 before the time 50 between.
const ROW: [u64; 26] = [
    10, 5, 2, 1, 0, 0, 2, 2, 0, 0, 1, 0, 0, 1, 2, 0, 0, 100, 1, 3, 1, 2, 1, 0, 0, 50,
];

fn event(kind: u64, time: u64, who: u64, value: u64) -> Event {
    Event {
        heard: 0,
        time,
        kind,
        who,
        value,
    }
}

// The row with one number replaced: whether it is kept. What is refused leaves the slice as it was.
#[test]
fn limits(rt: HostRuntime) {
    let edges = [
        (0, 1_099_511_627_775, true),
        (0, 1_099_511_627_776, false),
        (1, 1_099_511_627_775, true),
        (1, 1_099_511_627_776, false),
        (2, 0, false),
        (2, 1, true),
        (2, 6, true),
        (2, 7, false),
        (2, MOST, false),
        (3, 65_535, true),
        (3, 65_536, false),
        (4, MOST, false),
        (5, 3, false),
        (5, MOST, false),
        (8, 2, true),
        (8, 3, false),
        (9, 2, true),
        (9, 3, false),
        (10, 2, true),
        (11, 1, false),
        (12, 2, true),
        (12, 3, false),
        (17, TOP, true),
        (17, TOP + 1, false),
        (19, 65_536, false),
        (20, 5, false),
        (25, TOP + 1, false),
    ];
    for (place, number, may_be) in edges {
        let mut row = ROW;
        assert!(rt; place < 26);
        row[place] = number;
        let mut words = [7; PATTERN_WORDS];
        assert_eq!(rt; keep(&row, &mut words).is_ok(), may_be);
        assert_eq!(rt; words == [7; PATTERN_WORDS], !may_be);
    }
}

// The words that a row is kept in.
fn kept(row: &[u64]) -> Result<[u64; PATTERN_WORDS], Refusal> {
    let mut words = [7; PATTERN_WORDS];
    keep(row, &mut words)?;
    Ok(words)
}

// Where two nevers of a step begin.
const NEVER: usize = NEVERS_AT + 1;

const OTHER_NEVER: usize = NEVER + NEVER_WORDS;

// Where the tests of both begin.
const NEVER_TESTS: usize = NEVER + TESTS_AT;

const OTHER_TESTS: usize = OTHER_NEVER + TESTS_AT;

// A word of a step with four tests and two nevers of four tests: all are `test`, word by word.
fn largest_word(place: usize, test: u64) -> u64 {
    match place {
        0 | NEVER | OTHER_NEVER => KINDS - 1,
        TESTS_AT | NEVER_TESTS | OTHER_TESTS => MOST_TESTS as u64,
        NEVERS_AT => MOST_NEVERS as u64,
        _ => test,
    }
}

// Six such steps; the first two compare with numbers, the others with the second.
fn largest() -> [u64; PATTERN_WORDS] {
    array::from_fn(|i: usize| {
        if i < STEPS_AT {
            MOST_STEPS as u64
        } else {
            let place = i - STEPS_AT;
            let test = if place < 2 * STEP_WORDS { 0 } else { 1 };
            largest_word(place % STEP_WORDS, test)
        }
    })
}

// The largest pattern is its own words, since no room is left; one more of anything is refused.
// Unused room is 0, whatever stood there.
#[test]
fn largest_and_least(rt: HostRuntime) {
    let row = largest();
    assert_eq!(rt; kept(&row), Ok(row));
    for (place, number) in [(2, 7), (4, 5), (25, 3), (27, 5)] {
        let mut more = row;
        assert!(rt; place < PATTERN_WORDS);
        more[place] = number;
        assert_eq!(rt; kept(&more), Err(Refusal::NoPattern));
    }
    assert_eq!(rt; kept(&[]), Err(Refusal::NoPattern));
    assert_eq!(rt;
        keep(&row, &mut [7; PATTERN_WORDS - 1]),
        Err(Refusal::NotAsLong)
    );
    let mut least = [0; PATTERN_WORDS];
    least[2] = 1;
    least[3] = 9;
    assert_eq!(rt; kept(&[0, 0, 1, 9]), Ok(least));
}

// Tests and nevers of the row above, with a flag of 2 in it.
#[test]
fn tries(rt: HostRuntime) -> Result<(), Fail> {
    let mut row = ROW;
    row[10] = 2;
    let words = kept(&row)?;
    assert_eq!(rt; [words[74], words[75]], [1, 0]);
    let kept = Kept::over(&words).expect(&rt, "as many words as a pattern has");
    assert_eq!(rt; [kept.within(), kept.late(), kept.kind_of(1)], [10, 5, 2]);
    assert_eq!(rt; [kept.has_nevers(0), kept.has_nevers(1)], [false, true]);
    assert_eq!(rt; [kept.is_named(3), kept.is_named(4)], [true, false]);
    let earlier = [event(1, 40, 8, 0)];
    for (kind, time, who, value, fits, hit) in [
        (2, 60, 8, 100, true, false),
        (2, 60, 8, 99, false, false),
        (2, 60, 9, 100, false, false),
        (1, 60, 8, 100, false, false),
        (3, 49, 0, 0, false, true),
        (3, 50, 0, 0, false, false),
    ] {
        let e = event(kind, time, who, value);
        assert_eq!(rt; kept.fits(1, &earlier, e), fits);
        assert_eq!(rt; kept.hit(1, &earlier, e), hit);
    }
    Ok(())
}

// Words of garbage are read as six steps; no words but 405 are read.
#[test]
fn garbage(rt: HostRuntime) -> Result<(), Fail> {
    let words = [MOST; PATTERN_WORDS];
    assert!(rt; Kept::over(&words[1..]).is_none());
    let kept = Kept::over(&words).expect(&rt, "as many words as a pattern has");
    assert_eq!(rt; [kept.steps(), kept.kind_of(6) as usize], [6, 0]);
    assert_eq!(rt; [kept.has_nevers(5), kept.has_nevers(6)], [true, false]);
    assert_eq!(rt; [kept.is_named(MOST), kept.is_named(0)], [true, false]);
    let e = event(MOST, 1, 1, 1);
    assert_eq!(rt; [kept.fits(0, &[], e), kept.hit(0, &[], e)], [true, true]);
    assert_eq!(rt; kept.fits(MOST as usize, &[], event(0, 1, 1, 1)), true);
    Ok(())
}
