// One byte of a text: where a reader stands after it.
ghost use Rattle.std.specs.Prelude.{◌≡◌, length};
ghost use Rattle.syntax.specs.Reading.{whole};
ghost use Rattle.syntax.specs.Rules.{settle, spelled, steps_on};

use crate::drafts::Draft;
use crate::moves::Move;
use crate::places::{Place, Stand};
use crate::rules::begin;
use crate::words::{Word, is_digit, is_white};

impl Stand {
    // A number that is under way ends.
    pub fn settle(self) -> Move
        ensures { result ≡ settle self }
    {
        match self {
            Stand::Digits(slot, value) => slot.numbered(value),
            _ => Move::to(self),
        }
    }

    // So many bytes of a word are read.
    fn spelled(word: Word, read: usize, place: Place) -> Stand
        ensures { result ≡ spelled word read place }
    {
        if read < word.letters().len() {
            Stand::Rest(word, read, place)
        } else {
            Stand::At(place)
        }
    }

    // By what is read so far.
    pub fn step(self, draft: &Draft, byte: u8) -> Option<Move>
        ensures { result ≡ steps_on self draft.now.names.items (length draft.now.nevers.items) (length draft.now.tests.items) byte }
    {
        match self {
            Stand::At(place) if is_digit(byte) => place.slot(draft.names.len())?.counted(0, byte),
            Stand::At(place) if is_white(byte) => Some(Move::to(self)),
            Stand::At(place) => begin(place, draft, byte),
            Stand::Rest(word, read, place) => {
                if word.letters().get(read) != Some(&byte) {
                    return None;
                }
                Some(Move::to(Stand::spelled(word, read + 1, place)))
            }
            Stand::Digits(slot, value) if is_digit(byte) => slot.counted(value, byte),
            Stand::Digits(_, _) => None,
        }
    }

    // The window and the lateness, where nothing is awaited any more.
    pub fn whole(self) -> Option<(u64, u64)>
        ensures { result ≡ whole self }
    {
        match self {
            Stand::At(Place::Whole(within, late)) => Some((within, late)),
            _ => None,
        }
    }
}
