// What could have stood where a text is refused, for messages.
ghost use Rattle.std.specs.Prelude.{◌≡◌, length};
ghost use Rattle.syntax.specs.Expects.{expects_item, expects_number, expects_part, expects_at, expects};

use crate::drafts::Draft;
use crate::places::{Part, Place, Slot, Stand};
use crate::words::Word;
use patterns::layout::{MOST_NEVERS, MOST_STEPS, MOST_TESTS};

// The words that could have begun at a byte; between words, white space could have stood too, and in a number, more digits.
#[derive(Clone, Copy, PartialEq, Eq, Debug)]
pub enum Expected {
    KindOrNot,
    KindNotOrWithin,
    Kind,
    Within,
    // A letter that no earlier step has.
    Name,
    NameOrEnd,
    WhereOrEnd,
    // The letter of the step or never that is tested.
    OwnName(u8),
    Dot,
    // `who`, `value` or `time`.
    Field,
    // `=`, `<` or `>=`.
    Sign,
    OnlyNumber,
    // A number, or the letter of an earlier step.
    NumberOrName,
    AndOrEnd,
    // `;`
    End,
    LengthOfTime,
    Late,
    // White space at most: the pattern is whole.
    Nothing,
    // A word of which so many bytes stand there.
    RestOf(Word, usize),
}

fn at_item(draft: &Draft) -> Expected
    ensures { result ≡ expects_item (length draft.now.names.items) (length draft.now.nevers.items) }
{
    let steps = draft.names.len();
    let nevers = draft.nevers.len();
    if steps >= MOST_STEPS {
        Expected::Within
    } else if nevers >= MOST_NEVERS {
        Expected::Kind
    } else if steps > 0 && nevers == 0 {
        Expected::KindNotOrWithin
    } else {
        Expected::KindOrNot
    }
}

fn at_number(slot: Slot) -> Expected
    ensures { result ≡ expects_number slot }
{
    match slot {
        Slot::StepKind | Slot::NeverKind => Expected::Kind,
        Slot::Other(_, _, _) => Expected::OnlyNumber,
        Slot::Window | Slot::Lateness(_) => Expected::LengthOfTime,
    }
}

fn at_part(name: u8, part: Part, draft: &Draft) -> Expected
    ensures { result ≡ expects_part name part (length draft.now.names.items) }
{
    match part {
        Part::Own => Expected::OwnName(name),
        Part::OwnDot | Part::OtherDot(_, _, _) => Expected::Dot,
        Part::What | Part::OtherField(_, _, _) => Expected::Field,
        Part::How(_) => Expected::Sign,
        Part::Against(_, _) if draft.names.is_empty() => Expected::OnlyNumber,
        Part::Against(_, _) => Expected::NumberOrName,
    }
}

fn at_place(place: Place, draft: &Draft) -> Expected
    ensures { result ≡ expects_at place (length draft.now.names.items) (length draft.now.nevers.items) (length draft.now.tests.items) }
{
    match place {
        Place::Item => at_item(draft),
        Place::Number(slot) => at_number(slot),
        Place::StepName(_) => Expected::Name,
        Place::NeverName(_) => Expected::NameOrEnd,
        Place::Named(_) => Expected::WhereOrEnd,
        Place::Testing(head, part) => at_part(head.name, part, draft),
        Place::Tested(_) if draft.tests.len() < MOST_TESTS => Expected::AndOrEnd,
        Place::Tested(_) => Expected::End,
        Place::LateWord(_) => Expected::Late,
        Place::Whole(_, _) => Expected::Nothing,
    }
}

impl Stand {
    // By what is read so far.
    pub fn expected(self, draft: &Draft) -> Expected
        ensures { result ≡ expects self (length draft.now.names.items) (length draft.now.nevers.items) (length draft.now.tests.items) }
    {
        match self {
            Stand::At(place) => at_place(place, draft),
            Stand::Rest(word, read, _) => Expected::RestOf(word, read),
            Stand::Digits(slot, _) => at_number(slot),
        }
    }
}
