// Typed patterns on examples: the night, refusals at their bytes, limits at their edges, the largest pattern, texts cut short.
use crate::*;
use patterns::PATTERN_WORDS;
use std::alloc::AllocError;
use std::test::Fail;

const NIGHT: &str = "1 d; not 3; 2 l where l.who = d.who; within 60 late 20";

// How many numbers a text reads as, or the byte at which it is refused.
fn outcome(text: &[u8]) -> Result<usize, usize> {
    let mut row = [0u64; PATTERN_WORDS];
    match read(text, &mut row) {
        Ok(count) => Ok(count),
        Err(Refusal::At(byte, _)) => Err(byte),
        Err(Refusal::Short(_)) => Err(PATTERN_WORDS),
    }
}

// The night's sixteen numbers; written, and read again; a row that is too short stays as it was.
#[test]
fn night(rt: HostRuntime) -> Result<(), Fail> {
    let numbers = [60, 20, 2, 1, 0, 0, 2, 1, 0, 0, 1, 0, 0, 1, 3, 0];
    let mut row = [7u64; 16];
    assert!(rt; read(NIGHT.as_bytes(), &mut row).is_ok());
    assert_eq!(rt; row, numbers);
    let text = write(rt.alloc(), &row)?;
    assert!(rt; text.as_str() == "1 a; not 3 x; 2 b where b.who = a.who; within 60 late 20");
    let mut again = [7u64; 16];
    assert!(rt; read(text.as_bytes(), &mut again).is_ok());
    assert_eq!(rt; again, numbers);
    let mut short = [7u64; 15];
    assert!(rt; matches!(read(NIGHT.as_bytes(), &mut short), Err(Refusal::Short(16))));
    assert_eq!(rt; short, [7u64; 15]);
    assert!(rt; matches!(write(rt.alloc(), &short), Err(Unwritten::NoPattern)));
    Ok(())
}

#[test]
fn outcomes(rt: HostRuntime) {
    let table = [
        // What may be typed: no white space at all, much of it, leading zeros, nevers of the first step, the same letter for two nevers.
        ("1d;within5late6", Ok(6)),
        (" \t1\r\nd ;\n within 005\tlate 6 \n", Ok(6)),
        (
            "not 3; not 4 g where g.time < 9; 1 g; within 5 late 6",
            Ok(15),
        ),
        ("not 3 x; 1 a; not 4 x; 2 x; within 5 late 6", Ok(13)),
        // Words that break off or are others.
        ("", Err(0)),
        ("1 d; nox", Err(7)),
        ("1 d; within 60", Err(14)),
        ("1 d where d.whom", Err(15)),
        ("1 d where d.value > 3", Err(19)),
        ("1 door", Err(3)),
        ("1 d; within 5 late 6;", Err(20)),
        // No step; nevers with no step behind them; tests of a never that has no name.
        ("within 5 late 6", Err(0)),
        ("1 d; not 3; within", Err(12)),
        ("not 3 where", Err(7)),
        // Names: one that a step has, another than its own on the left, its own or an unknown one on the right, none to name yet.
        ("1 d; 2 d", Err(7)),
        ("1 d; not 3 d", Err(11)),
        ("1 d; 2 l where d", Err(15)),
        ("1 d; 2 l where l.who = l", Err(23)),
        ("1 d where d.who = d", Err(18)),
        // Too many: steps, nevers, tests.
        ("1 a;1 b;1 c;1 d;1 e;1 f;1 g", Err(24)),
        ("1 a;1 b;1 c;1 d;1 e;1 f;not", Err(24)),
        ("not 1;not 2;not 3", Err(12)),
        (
            "1 d where d.who=1 and d.who=1 and d.who=1 and d.who=1 and",
            Err(54),
        ),
        // Numbers at their edges: the digit that makes one too large.
        ("65535 d; within 1099511627775 late 1099511627775", Ok(6)),
        ("65536", Err(4)),
        (
            "1 d where d.who = 4611686018427387903; within 5 late 6",
            Ok(11),
        ),
        ("1 d where d.who = 4611686018427387904", Err(36)),
        ("1 d; within 1099511627776", Err(24)),
        ("1 d; within 5 late 1099511627776", Err(31)),
    ];
    for (text, answer) in table {
        assert_eq!(rt; outcome(text.as_bytes()), answer, "{}", text);
    }
}

// A kind and four tests.
fn push_item(row: &mut Vec<u64>, test: [u64; 5]) -> Result<(), AllocError> {
    row.extend_from_slice(&[65_535, 4])?;
    for _ in 0..4 {
        row.extend_from_slice(&test)?;
    }
    Ok(())
}

// The largest pattern is written and read again: six steps with two nevers each, four tests everywhere, numbers at their edges.
#[test]
fn largest(rt: HostRuntime) -> Result<(), Fail> {
    let mut row = [1_099_511_627_775, 1_099_511_627_775, 6].to_vec(rt.alloc())?;
    let mut test = [2, 2, 0, 0, 4_611_686_018_427_387_903];
    for n in 0..6 {
        push_item(&mut row, test)?;
        row.push(2)?;
        push_item(&mut row, test)?;
        push_item(&mut row, test)?;
        test = [1, 1, 1, n, 2];
    }
    let text = write(rt.alloc(), row.as_slice())?;
    let mut again = [0u64; PATTERN_WORDS];
    assert!(rt; read(text.as_bytes(), &mut again).is_ok());
    assert!(rt; row.as_slice() == again.as_slice());
    Ok(())
}

// Cut off at any byte, a text is refused at its end, or its last number is shorter.
#[test]
fn cut_short(rt: HostRuntime) {
    let bytes = NIGHT.as_bytes();
    for i in 0..bytes.len() {
        let whole = i + 1 == bytes.len();
        assert_eq!(rt; outcome(&bytes[0..i]), if whole { Ok(16) } else { Err(i) });
    }
}
