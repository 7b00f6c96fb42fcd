// The listener told of bytes, on examples: what it says, and where the events go wrong.
use crate::listening::Listening;
use files::{Failed, Fault, Part, PatternSource};
use std::alloc::{AllocError, Global};
use std::process::Abort;
use std::test::Fail;

// A door, then a lamp within 60 of the same who, and never a guard between; one may hear of it 20 late.
const NIGHT: [u64; 16] = [60, 20, 2, 1, 0, 0, 2, 1, 0, 0, 1, 0, 0, 1, 3, 0];

const EVENTS: [[u64; 4]; 8] = [
    [100, 1, 7, 0],
    [130, 2, 7, 0],
    [110, 3, 1, 0],
    [150, 1, 8, 0],
    [125, 1, 7, 0],
    [160, 2, 8, 0],
    [155, 2, 8, 0],
    [200, 1, 9, 0],
];

// Number 4 comes before any row is told; two rows are told at number 7.
const SAID: &str = "late 4\n3 6\n3 5\n";

fn bytes_of(heap: Global, events: &[[u64; 4]]) -> Result<Vec<u8>, AllocError> {
    let mut bytes = Vec::new(heap);
    for event in events {
        for number in event {
            bytes.extend_from_slice(&number.to_le_bytes())?;
        }
    }
    Ok(bytes)
}

// Some of the bytes; none where there are fewer.
fn part(bytes: &[u8], from: usize, to: usize) -> &[u8] {
    match bytes.get(from..to) {
        Some(part) => part,
        None => &bytes[..0],
    }
}

// A listener that was given a pattern and told of some bytes.
fn heard(rt: &impl Abort, heap: Global, pattern: &[u64], bytes: &[u8]) -> Result<Listening, Fail> {
    let mut listening = Listening::new(heap)?;
    assert!(rt; listening.begin(pattern).is_ok());
    assert!(rt; listening.hear(bytes).is_ok());
    Ok(listening)
}

// The night whole, and in parts of which the last is told of at the end.
#[test]
fn night(rt: HostRuntime) -> Result<(), Fail> {
    let heap = rt.alloc();
    let bytes = bytes_of(heap, &EVENTS)?;
    let mut listening = heard(&rt, heap, &NIGHT, &bytes)?;
    assert!(rt; listening.text.as_str() == SAID);
    assert!(rt; listening.finish().is_ok());
    assert!(rt; listening.text.as_str() == SAID);
    assert!(rt; listening.fault.is_none());
    let mut listening = heard(&rt, heap, &NIGHT, part(&bytes, 0, 160))?;
    assert!(rt; listening.hear(part(&bytes, 160, 224)).is_ok());
    assert!(rt; listening.text.as_str() == "late 4\n");
    assert!(rt; listening.finish().is_ok());
    assert!(rt; listening.text.as_str() == SAID);
    assert_eq!(rt; listening.count, 7);
    Ok(())
}

// Who is who: a door of 7, a lamp of 8, and a lamp of 7 whose value is another.
#[test]
fn who(rt: HostRuntime) -> Result<(), Fail> {
    let heap = rt.alloc();
    let bytes = bytes_of(heap, &[[100, 1, 7, 5], [101, 2, 8, 5], [102, 2, 7, 6]])?;
    let mut listening = heard(&rt, heap, &NIGHT, &bytes)?;
    assert!(rt; listening.finish().is_ok());
    assert!(rt; listening.text.as_str() == "0 2\n");
    Ok(())
}

// What is whole in front of a fault is told of, and nothing behind it.
#[test]
fn faults(rt: HostRuntime) -> Result<(), Fail> {
    let heap = rt.alloc();
    let mut events = EVENTS;
    events[7][2] = 4_611_686_018_427_387_904;
    let bytes = bytes_of(heap, &events)?;
    let mut listening = heard(&rt, heap, &NIGHT, &bytes)?;
    assert!(rt; matches!(listening.fault, Some(Fault::TooLarge(7, Part::Who))));
    assert!(rt; listening.finish().is_ok());
    assert!(rt; listening.text.as_str() == SAID);
    let mut listening = heard(&rt, heap, &NIGHT, part(&bytes, 0, 70))?;
    listening.cut_off(0);
    assert!(rt; listening.fault.is_none());
    listening.cut_off(1);
    assert!(rt; matches!(listening.fault, Some(Fault::CutOff(2, 1))));
    Ok(())
}

// No pattern; and want of room at the event that is one too many.
#[test]
fn refusals(rt: HostRuntime) -> Result<(), Fail> {
    let heap = rt.alloc();
    let mut listening = Listening::new(heap)?;
    assert!(rt; matches!(listening.begin(&[60, 20, 0]), Err(Failed::Said)));
    assert!(rt; listening.text.as_str() == "refused 1\n");
    let doors = bytes_of(heap, &[[100, 1, 7, 0]; 8192])?;
    let mut listening = heard(&rt, heap, &NIGHT, &doors)?;
    assert!(rt; listening.text.is_empty());
    assert!(rt; matches!(listening.hear(part(&doors, 0, 32)), Err(Failed::Said)));
    assert!(rt; listening.text.as_str() == "refused 8\n");
    Ok(())
}

// What the words of a command line name.
fn named(heap: Global, words: &[&str]) -> Result<Option<PatternSource>, AllocError> {
    let mut line = Vec::new(heap);
    for word in words {
        line.push(String::from_str(heap, word)?)?;
    }
    Ok(PatternSource::next(&mut line.into_iter()))
}

// The night's pattern typed in the command line; words that name a file; and words that name none.
#[test]
fn patterns_named(rt: HostRuntime) -> Result<(), Fail> {
    let heap = rt.alloc();
    let typed = "1 d; not 3; 2 l where l.who = d.who; within 60 late 20";
    let source = named(heap, &["-e", typed, "events"])?.expect(&rt, "a pattern");
    let row = source.read(&rt).expect(&rt, "its numbers");
    assert!(rt; row.as_slice() == NIGHT.as_slice());
    let source = named(heap, &["-t", "typed", "events"])?.expect(&rt, "a pattern");
    assert!(rt; matches!(&source, PatternSource::TextFile(path) if path.as_str() == "typed"));
    let source = named(heap, &["numbers", "events"])?.expect(&rt, "a pattern");
    assert!(rt; matches!(&source, PatternSource::Numbers(path) if path.as_str() == "numbers"));
    assert!(rt; named(heap, &["-t"])?.is_none());
    assert!(rt; named(heap, &["-e"])?.is_none());
    assert!(rt; named(heap, &[])?.is_none());
    Ok(())
}
