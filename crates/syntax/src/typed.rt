// The parts of a kept pattern as they are typed: steps under the letters a to f, in their order, and every never under x.
ghost use Rattle.std.specs.Prelude.{◌≡◌, ◌<◌, [], ◌∷◌, slice_index, Some};
ghost use Rattle.patterns.specs.Kept.{kept_tests, kept_pattern, step_in};
ghost use Rattle.patterns.specs.Codes.{test_of};
ghost use Rattle.syntax.specs.Typed.{joint, step_letter, typed_test, typed_item, typed_step_as, typed};

use crate::words::Word;
use patterns::layout::{
    COUNT_AT, LATE_AT, MOST_NEVERS, MOST_STEPS, MOST_TESTS, NEVER_WORDS, NEVERS_AT, STEP_WORDS,
    STEPS_AT, TEST_WORDS, WITHIN_AT,
};
use patterns::{Comparison, Field, PATTERN_WORDS, Sign, at_most};
use std::fmt;

// How many letters there are.
const LETTERS: u64 = 26;

// What stands in front of a test.
fn joint(index: usize) -> &'static str
    ensures { result.now ≡ joint index }
{
    if index == 0 { " where " } else { " and " }
}

// The letter of a step or a never.
#[derive(Clone, Copy)]
pub struct Letter {
    byte: u8,
    ghost ascii: { byte < 128 },
}

impl Letter {
    const NEVER: Letter = Letter { byte: b'x' };

    fn of_step(step: u64) -> Letter
        ensures { result.byte ≡ step_letter step }
    {
        Letter {
            byte: b'a' + step.min(LETTERS - 1) as u8,
        }
    }
}

impl fmt::Display for Letter {
    ghost output = { λ l. Some (l.byte ∷ []) };

    fn fmt<W: fmt::Write>(&self, f: &mut fmt::Formatter<W>) -> fmt::Result {
        let letter = self.byte as char;
        write!(f, "{letter}")
    }
}

// A test of what has a letter.
#[derive(Clone, Copy)]
struct TypedTest {
    letter: Letter,
    test: Comparison,
}

impl fmt::Display for TypedTest {
    ghost output = { λ t. Some (typed_test t.letter.byte (test_of t.test)) };

    fn fmt<W: fmt::Write>(&self, f: &mut fmt::Formatter<W>) -> fmt::Result {
        let Comparison {
            what,
            sign,
            step,
            other,
        } = self.test;
        let sign = match sign {
            Sign::Equal => " = ",
            Sign::Below => " < ",
            Sign::NotBelow => " >= ",
        };
        let letter = self.letter;
        let what = Word::Of(what).text();
        write!(f, "{letter}.{what}{sign}")?;
        match step {
            Some(step) => {
                let letter = Letter::of_step(step);
                let field = Word::Of(Field::from(other)).text();
                write!(f, "{letter}.{field}")
            }
            None => write!(f, "{other}"),
        }
    }
}

// A kind, a letter and tests: what is typed of a never, and of a step behind its nevers.
#[derive(Clone, Copy)]
struct TypedItem<'a> {
    letter: Letter,
    words: &'a [u64; NEVER_WORDS],
}

impl fmt::Display for TypedItem<'_> {
    ghost output = { λ i. Some (typed_item (slice_index i.words.now 0) i.letter.byte (kept_tests i.words.now 1)) };

    fn fmt<W: fmt::Write>(&self, f: &mut fmt::Formatter<W>) -> fmt::Result {
        let letter = self.letter;
        let words = self.words;
        let kind = words[0];
        write!(f, "{kind} {letter}")?;
        let count = at_most(MOST_TESTS, words[1]);
        let (tests, _) = words[2..].as_chunks::<TEST_WORDS>();
        for (i, part) in tests[..count].iter().enumerate() {
            let joint = joint(i);
            let test = TypedTest {
                letter,
                test: Comparison::from(*part),
            };
            write!(f, "{joint}{test}")?;
        }
        write!(f, "; ")
    }
}

// A step and the nevers in front of it.
#[derive(Clone, Copy)]
struct TypedStep<'a> {
    letter: Letter,
    words: &'a [u64; STEP_WORDS],
}

impl fmt::Display for TypedStep<'_> {
    ghost output = { λ s. Some (typed_step_as s.letter.byte (step_in s.words.now)) };

    fn fmt<W: fmt::Write>(&self, f: &mut fmt::Formatter<W>) -> fmt::Result {
        let words = self.words;
        let count = at_most(MOST_NEVERS, words[NEVERS_AT]);
        let (nevers, _) = words[NEVERS_AT + 1..].as_chunks::<NEVER_WORDS>();
        for part in &nevers[..count] {
            let never = TypedItem {
                letter: Letter::NEVER,
                words: part,
            };
            write!(f, "not {never}")?;
        }
        let item = TypedItem {
            letter: self.letter,
            words: words.first_chunk().unwrap(),
        };
        write!(f, "{item}")
    }
}

// A whole pattern.
#[derive(Clone, Copy)]
pub struct TypedPattern<'a> {
    pub words: &'a [u64; PATTERN_WORDS],
}

impl fmt::Display for TypedPattern<'_> {
    ghost output = { λ p. Some (typed (kept_pattern p.words.now)) };

    fn fmt<W: fmt::Write>(&self, f: &mut fmt::Formatter<W>) -> fmt::Result {
        let words = self.words;
        let count = at_most(MOST_STEPS, words[COUNT_AT]);
        let (steps, _) = words[STEPS_AT..].as_chunks::<STEP_WORDS>();
        for (i, part) in steps[..count].iter().enumerate() {
            let step = TypedStep {
                letter: Letter::of_step(i as u64),
                words: part,
            };
            write!(f, "{step}")?;
        }
        let within = words[WITHIN_AT];
        let late = words[LATE_AT];
        write!(f, "within {within} late {late}")
    }
}
