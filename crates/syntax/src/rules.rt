// Names, words and marks: where a reader stands after the first byte of one. None: no pattern goes on with this byte.
ghost use Rattle.std.specs.Prelude.{◌≡◌, ◌==◌, length};
ghost use Rattle.syntax.specs.Names.{step_named};
ghost use Rattle.syntax.specs.declared.places.Stand.TheVariants.{At};
ghost use Rattle.syntax.specs.Rules.{goes, only_if, begins_item, begins_name, begins_sign, begins_part, begins};

use crate::drafts::Draft;
use crate::moves::{Act, Move};
use crate::places::{Head, Part, Place, Role, Slot, Stand};
use crate::words::{Word, field_begun};
use patterns::layout::{MOST_NEVERS, MOST_STEPS, MOST_TESTS};
use patterns::{Comparison, Field, Sign};

// The step that has a letter.
fn step_named(letter: u8, names: &[u8]) -> Option<u64>
    ensures { result ≡ step_named letter names.now }
{
    let step = names.iter().position(|name| *name == letter)?;
    Some(step as u64)
}

fn begin_item(draft: &Draft, byte: u8) -> Option<Move>
    ensures { result ≡ begins_item (length draft.now.names.items) (length draft.now.nevers.items) byte }
{
    let steps = draft.names.len();
    let nevers = draft.nevers.len();
    match byte {
        b'n' if steps < MOST_STEPS && nevers < MOST_NEVERS => {
            Some(Move::spelling(Word::Not, Place::Number(Slot::NeverKind)))
        }
        b'w' if steps > 0 && nevers == 0 => {
            Some(Move::spelling(Word::Within, Place::Number(Slot::Window)))
        }
        _ => None,
    }
}

// A name of its own is none that an earlier step has.
fn begin_name(role: Role, kind: u64, names: &[u8], byte: u8) -> Option<Move>
    ensures { result ≡ begins_name role kind names.now byte }
{
    if !byte.is_ascii_lowercase() || step_named(byte, names).is_some() {
        return None;
    }
    let head = Head {
        role,
        kind,
        name: byte,
    };
    Some(Move::to(Stand::At(Place::Named(head))))
}

fn begin_sign(head: Head, what: Field, byte: u8) -> Option<Move>
    ensures { result ≡ begins_sign head what byte }
{
    match byte {
        b'=' => Some(Move::to(Stand::At(Place::Testing(head, Part::Against(what, Sign::Equal))))),
        b'<' => Some(Move::to(Stand::At(Place::Testing(head, Part::Against(what, Sign::Below))))),
        b'>' => Some(Move::spelling(
            Word::AtLeast,
            Place::Testing(head, Part::Against(what, Sign::NotBelow)),
        )),
        _ => None,
    }
}

fn begin_dot(place: Place, byte: u8) -> Option<Move>
    ensures { result ≡ only_if (byte == 46) (goes (At place)) }
{
    (byte == b'.').then_some(Move::to(Stand::At(place)))
}

fn begin_part(head: Head, part: Part, names: &[u8], byte: u8) -> Option<Move>
    ensures { result ≡ begins_part head part names.now byte }
{
    match part {
        Part::Own if byte == head.name => {
            Some(Move::to(Stand::At(Place::Testing(head, Part::OwnDot))))
        }
        Part::Own => None,
        Part::OwnDot => begin_dot(Place::Testing(head, Part::What), byte),
        Part::What => {
            let what = field_begun(byte)?;
            let next = Place::Testing(head, Part::How(what));
            Some(Move::spelling(Word::Of(what), next))
        }
        Part::How(what) => begin_sign(head, what, byte),
        Part::Against(what, sign) => {
            let step = step_named(byte, names)?;
            let next = Place::Testing(head, Part::OtherDot(what, sign, step));
            Some(Move::to(Stand::At(next)))
        }
        Part::OtherDot(what, sign, step) => {
            begin_dot(
                Place::Testing(head, Part::OtherField(what, sign, step)),
                byte,
            )
        }
        Part::OtherField(what, sign, step) => {
            let field = field_begun(byte)?;
            let test = Comparison {
                what,
                sign,
                step: Some(step),
                other: u64::from(field),
            };
            let stand = Stand::Rest(Word::Of(field), 1, Place::Tested(head));
            Some(Move::adding(test, stand))
        }
    }
}

// By what is read so far.
pub fn begin(place: Place, draft: &Draft, byte: u8) -> Option<Move>
    ensures { result ≡ begins place draft.now.names.items (length draft.now.nevers.items) (length draft.now.tests.items) byte }
{
    let names = draft.names.as_slice();
    match place {
        Place::Item => begin_item(draft, byte),
        Place::StepName(kind) => begin_name(Role::Step, kind, names, byte),
        Place::NeverName(kind) if byte == b';' => Some(Move::ending(Act::EndNever(kind))),
        Place::NeverName(kind) => begin_name(Role::Never, kind, names, byte),
        Place::Named(head) | Place::Tested(head) if byte == b';' => Some(Move::ending(head.end())),
        Place::Named(head) if byte == b'w' => Some(Move::spelling(
            Word::Where,
            Place::Testing(head, Part::Own),
        )),
        Place::Testing(head, part) => begin_part(head, part, names, byte),
        Place::Tested(head) if byte == b'a' && draft.tests.len() < MOST_TESTS => Some(
            Move::spelling(Word::And, Place::Testing(head, Part::Own)),
        ),
        Place::LateWord(window) if byte == b'l' => Some(Move::spelling(
            Word::Late,
            Place::Number(Slot::Lateness(window)),
        )),
        _ => None,
    }
}
