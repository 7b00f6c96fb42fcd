// What a program is called with: a pattern (a file of numbers, a file in which it is typed, or the text itself), and what stands behind it.
ghost use Rattle.std.specs.Prelude.{◌≡◌, IfErr, List, [], ◌∷◌, String, Option, MatchOption};
ghost use Rattle.std.specs.Global.{Global};
ghost use Rattle.std.specs.Vec.Iter.{into_iter_items};
ghost use Rattle.files.specs.Failures.{OfReading};
ghost use Rattle.files.specs.Asking.{SaysSource, SaysBoth};

use crate::complaining::complaint;
use crate::failing::{Failed, read_file, read_pattern};
use std::env;
use std::env::Args;
use std::io::Write;
use syntax::{Unread, numbers};

#[derive(Drop)]
pub enum PatternSource {
    Numbers(String),
    // `-t FILE`
    TextFile(String),
    // `-e TEXT`
    Text(String),
}

// The numbers of a typed pattern; or what is wrong with it, said on standard error behind a name for it. Saying it can fail as well, so
// that this is no `map_err`, in which there is no `?`.
fn read_typed(rt: &HostRuntime, name: &str, text: &[u8]) -> Result<Vec<u64>, Failed> {
    match numbers(rt.alloc(), text) {
        Ok(row) => Ok(row),
        Err(Unread::At(byte, expected)) => {
            let said = complaint(rt.alloc(), text, byte, expected)?;
            eprint!(rt; "{name}: ")?;
            rt.stderr().write_all(&said)?;
            Err(Failed::Said)
        }
        Err(Unread::NoMemory) => Err(Failed::Memory),
    }
}

// The next word, where there is one.
fn next_word(args: &mut Args) -> Option<String>
    ensures { MatchOption result (into_iter_items args.old ≡ []) (λ w. into_iter_items args.old ≡ w ∷ into_iter_items args.new) }
{
    args.next()
}

impl PatternSource {
    // What the next words of a command line say; None where they say none.
    pub fn next(args: &mut Args) -> Option<PatternSource>
        ensures { SaysSource (into_iter_items args.old) result (into_iter_items args.new) }
    {
        let word = next_word(args)?;
        match word.as_str() {
            "-t" => Some(PatternSource::TextFile(next_word(args)?)),
            "-e" => Some(PatternSource::Text(next_word(args)?)),
            _ => Some(PatternSource::Numbers(word)),
        }
    }

    // The pattern's numbers; or what is wrong, said on standard error.
    pub fn read(&self, rt: &HostRuntime) -> Result<Vec<u64>, Failed> {
        match self {
            PatternSource::Numbers(path) => read_pattern(rt, path.as_str()),
            PatternSource::TextFile(path) => {
                let text = read_file(rt, path.as_str())?;
                read_typed(rt, path.as_str(), &text)
            }
            PatternSource::Text(text) => read_typed(rt, "pattern", text.as_bytes()),
        }
    }
}

// A pattern, and the path of a file of events.
#[derive(Drop)]
pub struct PatternAndEvents {
    pub pattern: PatternSource,
    pub events: String,
}

// What the words of a command line can say behind a program's name.
pub trait Words: Drop {
    // What stands behind the pattern, as a usage names it.
    const BEHIND_PATTERN: &'static str;

    // What words say, and which are left.
    ghost says: { List (String Global) → Option Self → List (String Global) → Type 0 };

    // What the next words say; None where they are too few.
    fn next_of(args: &mut Args) -> Option<Self>
        ensures { says (into_iter_items args.old) result (into_iter_items args.new) };
}

impl Words for PatternSource {
    const BEHIND_PATTERN: &'static str = "";

    ghost says = { SaysSource };

    // By `next`, which is there for callers that know the type, with a clause of its own.
    fn next_of(args: &mut Args) -> Option<PatternSource> {
        PatternSource::next(args)
    }
}

impl Words for PatternAndEvents {
    const BEHIND_PATTERN: &'static str = " EVENTS";

    ghost says = { SaysBoth };

    fn next_of(args: &mut Args) -> Option<PatternAndEvents> {
        Some(PatternAndEvents {
            pattern: PatternSource::next(args)?,
            events: next_word(args)?,
        })
    }
}

// What a program's words say; or how it is called, said on standard error. By hand and not by `clap`, which words a usage and its refusals
// itself: the one line that is printed here must stay as it is.
pub fn asked<W: Words>(rt: &HostRuntime, program: &str) -> Result<W, Failed>
    ensures { IfErr result OfReading }
{
    let mut args = env::args(rt)?;
    let _program = args.next();
    if let (Some(words), None) = (W::next_of(&mut args), args.next()) {
        return Ok(words);
    }
    let behind = W::BEHIND_PATTERN;
    eprintln!(rt;
        "usage: {program} PATTERN{behind}, {program} -t TEXTFILE{behind} or {program} -e TEXT{behind} (- is standard input)"
    )?;
    Err(Failed::Said)
}
