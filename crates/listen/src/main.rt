// listen [-t | -e] PATTERN EVENTS: tells each row that fits as soon as nothing that may still come could change it.
#![tactic(auto)]

mod listening;

use files::{Failed, PatternAndEvents, Source, asked, ending, without_fault};
use listening::Listening;
use std::process::ExitCode;

const PROGRAM: &str = "listen";

// So many bytes are read at once at most.
const CHUNK: usize = 65536;

// Hears the whole events of some bytes, and writes what is known then: the bytes that are left behind them.
fn hear_bytes(
    rt: &HostRuntime,
    listening: &mut Listening,
    bytes: &[u8],
) -> Result<Vec<u8>, Failed> {
    let heard = listening.hear(bytes);
    listening.write(rt)?;
    Ok(heard?.to_vec(rt.alloc())?)
}

// The same with more bytes behind those that were left.
fn hear_more(
    rt: &HostRuntime,
    listening: &mut Listening,
    mut left: Vec<u8>,
    bytes: &[u8],
) -> Result<Vec<u8>, Failed> {
    if left.is_empty() {
        return hear_bytes(rt, listening, bytes);
    }
    left.extend_from_slice(bytes)?;
    hear_bytes(rt, listening, &left)
}

// Hears all events of a source; what is known is written before more is waited for.
fn hear_all(rt: &HostRuntime, path: &str, listening: &mut Listening) -> Result<(), Failed> {
    let mut source = Source::open(rt, path)?;
    let mut chunk = vec![in rt.alloc(); 0; CHUNK]?;
    let mut left: Vec<u8> = Vec::new(rt.alloc());
    // A loop needs a measure, so there is a count: no source has so many parts.
    for _ in 0..u64::MAX {
        let n = source.more(rt, path, &mut chunk)?;
        if n == 0 {
            break;
        }
        left = hear_more(rt, listening, left, &chunk[..n])?;
        if listening.fault.is_some() {
            return Ok(());
        }
    }
    listening.cut_off(left.len());
    Ok(())
}

// What is wrong with the events is said when all that came before it is told.
fn run(rt: &HostRuntime) -> Result<(), Failed> {
    let PatternAndEvents { pattern, events } = asked(rt, PROGRAM)?;
    let row = pattern.read(rt)?;
    let mut listening = Listening::new(rt.alloc())?;
    let begun = listening.begin(&row);
    listening.write(rt)?;
    begun?;
    hear_all(rt, events.as_str(), &mut listening)?;
    let ended = listening.finish();
    listening.write(rt)?;
    ended?;
    without_fault(rt, events.as_str(), listening.fault)
}

fn main(rt: HostRuntime) -> ExitCode {
    ending(&rt, PROGRAM, run(&rt))
}
