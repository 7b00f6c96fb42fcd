// What a level of the search asks for: which positions may be chosen, given those chosen before.
ghost use Rattle.std.specs.Prelude.{◌≡◌, ℕ, ◌+◌, ◌-◌, ◌<◌, ◌≤◌, true, false, length, take, drop, IfSome, ◌==◌, nat_le, slice_index, slice_index_or};
ghost use Rattle.timeline.specs.Lists.{any, run};
ghost use Rattle.timeline.specs.Order.{nothing, nth};
ghost use Rattle.patterns.specs.Kept.{kept_step, kept_count, kept_pattern};
ghost use Rattle.rows.specs.Held.{Along, level_step};
ghost use Rattle.rows.specs.Search.{Barren, chosen};
ghost use Rattle.rows.specs.Finding.{forbidden, fits, row_ok, row_lo, row_hi, space};

use crate::held::{Held, is_within};
use crate::search::Cursor;
use patterns::Kept;
use patterns::layout::MOST_STEPS;
use std::array;
use timeline::Event;

// How many levels there can be: as many as a pattern has steps.
pub const LEVELS: usize = MOST_STEPS;

// What is chosen so far: how many positions, six of them as a cursor has them, and the events that stand there. Arrays beside a depth and no
// list, since a cursor is six positions in lent memory and behind the depth stands the one to try next, which is part of the place. That
// the events stand there is a clause of the search's methods and no field: it is said of the search's events too, and of one depth here and
// the next there. So is that the depth is below the steps: it ties a choice to the search's pattern, and the loop changes the depth in place
// between the calls, so that a struct of both would be made anew, and its fact shown, at each of them.
#[derive(Drop)]
pub struct Choice {
    pub depth: usize,
    pub at: [usize; LEVELS],
    pub row: [Event; LEVELS],
}

impl Choice {
    // Where the positions to choose from end: before the last event, and before a bound for the last event itself.
    pub fn end(&self, upto: usize) -> usize
        requires { self.now.depth ≤ 6 }
        ensures { result ≡ row_hi upto (chosen self.now.at self.now.depth) }
    {
        if self.depth == 0 { upto } else { self.at[0] }
    }
}

// Which step a depth chooses for: first the last step, then from the first one on.
fn level_step(steps: usize, depth: usize) -> usize
    requires { 1 ≤ steps }
    ensures { result ≡ level_step steps depth }
{
    if depth == 0 { steps - 1 } else { depth - 1 }
}

// Held events, and the pattern whose rows are looked for.
#[derive(Drop)]
pub struct Search<'a> {
    pub held: Held<'a>,
    pub kept: Kept<'a>,
}

impl Search<'_> {
    // Whether an event behind position a and before b is one that a never of the step forbids. Two loops: one passes what is of neither
    // kind, and looks at nothing but that; what it stops at is tried here.
    fn is_broken(&self, step: usize, earlier: &[Event], a: usize, b: usize) -> bool
        requires { b ≤ length self.now.held }
        ensures { result ≡ any (λ i. forbidden earlier.now (kept_step self.now.kept.words.now step) (nth self.now.held i)) (run (a + 1) (b - (a + 1))) }
    {
        if !self.kept.has_nevers(step) {
            return false;
        }
        if a >= b {
            return false;
        }
        let (one, other) = self.kept.never_kinds(step);
        let mut i = a + 1;
        while i < b {
            i = self.held.next_of_kinds(one, other, i, b);
            if i >= b {
                return false;
            }
            if self.kept.hit(step, earlier, self.held.get(i)) {
                return true;
            }
            i += 1;
        }
        false
    }

    // Whether the event chosen at a depth fits a step behind the events of the steps before: by itself, within the window, and with nothing
    // forbidden between.
    fn fits_at(&self, choice: &Choice, step: usize, depth: usize) -> bool
        requires here { depth ≤ choice.now.depth }
        requires before { step ≤ choice.now.depth }
        requires few { choice.now.depth < kept_count self.now.kept.words.now }
        requires along { Along self.now.held choice.now.at choice.now.row (choice.now.depth + 1) }
        ensures { result ≡ fits self.now.held (kept_pattern self.now.kept.words.now).within (kept_step self.now.kept.words.now step) (take step (drop 1 choice.now.at)) (slice_index choice.now.at depth) }
    {
        let earlier = &choice.row[1..step + 1];
        let e = choice.row[depth];
        if !self.kept.fits(step, earlier, e) {
            return false;
        }
        if step == 0 {
            return true;
        }
        if !is_within(e.time, earlier[0].time, self.kept.within()) {
            return false;
        }
        !self.is_broken(step, earlier, choice.at[step], choice.at[depth])
    }

    // Whether the position chosen last may stand there, given those before it. With the last but one event the last can be tried whole.
    pub fn may_stand(&self, choice: &Choice) -> bool
        requires few { choice.now.depth < kept_count self.now.kept.words.now }
        requires along { Along self.now.held choice.now.at choice.now.row (choice.now.depth + 1) }
        ensures { result ≡ row_ok self.now.held (kept_pattern self.now.kept.words.now).within (kept_pattern self.now.kept.words.now).steps (chosen choice.now.at choice.now.depth) (slice_index choice.now.at choice.now.depth) }
    {
        let steps = self.kept.steps();
        let depth = choice.depth;
        if depth == 0 {
            if steps == 1 {
                return self.fits_at(choice, 0, 0);
            }
            return choice.row[0].kind == self.kept.kind_of(steps - 1);
        }
        if !self.fits_at(choice, depth - 1, depth) {
            return false;
        }
        if depth + 1 != steps {
            return true;
        }
        self.fits_at(choice, depth, 0)
    }

    // The who that the event to choose next has to have, where a test says which: one of its own step, or with the last but one event one of
    // the last step.
    fn who_asked(&self, choice: &Choice) -> Option<u64>
        requires few { choice.now.depth < kept_count self.now.kept.words.now }
        requires along { Along self.now.held choice.now.at choice.now.row choice.now.depth }
        ensures { IfSome result (λ w. (i : ℕ) → ((nth self.now.held i).who == w) ≡ false → i < length self.now.held → row_ok self.now.held (kept_pattern self.now.kept.words.now).within (kept_pattern self.now.kept.words.now).steps (chosen choice.now.at choice.now.depth) i ≡ false) }
    {
        let depth = choice.depth;
        if depth == 0 {
            return None;
        }
        if let Some(who) = self.kept.who_asked(depth - 1, &choice.row[1..depth]) {
            return Some(who);
        }
        if depth + 1 != self.kept.steps() {
            return None;
        }
        if !self.kept.asks_same_who(depth, depth - 1) {
            return None;
        }
        Some(choice.row[0].who)
    }

    // The first position to choose, from the one to try next on and before an end, whose event is of the step's kind.
    fn next_candidate(&self, choice: &Choice, end: usize) -> usize
        requires few { choice.now.depth < kept_count self.now.kept.words.now }
        requires order { slice_index choice.now.at choice.now.depth ≤ end }
        requires inside { end ≤ length self.now.held }
        ensures bounds { (slice_index choice.now.at choice.now.depth ≤ result) × (result ≤ end) }
        ensures passed { (i : ℕ) → i < result → slice_index choice.now.at choice.now.depth ≤ i → row_ok self.now.held (kept_pattern self.now.kept.words.now).within (kept_pattern self.now.kept.words.now).steps (chosen choice.now.at choice.now.depth) i ≡ false }
    {
        let kind = self
            .kept
            .kind_of(level_step(self.kept.steps(), choice.depth));
        self.held.next_of_kind(kind, choice.at[choice.depth], end)
    }

    // The first position to choose, from the one to try next on and before an end, whose event is of the step's kind and of the who that is
    // asked for.
    pub fn next_asked(&self, choice: &Choice, end: usize) -> usize
        requires few { choice.now.depth < kept_count self.now.kept.words.now }
        requires order { slice_index choice.now.at choice.now.depth ≤ end }
        requires inside { end ≤ length self.now.held }
        requires along { Along self.now.held choice.now.at choice.now.row choice.now.depth }
        ensures bounds { (slice_index choice.now.at choice.now.depth ≤ result) × (result ≤ end) }
        ensures passed { (i : ℕ) → i < result → slice_index choice.now.at choice.now.depth ≤ i → row_ok self.now.held (kept_pattern self.now.kept.words.now).within (kept_pattern self.now.kept.words.now).steps (chosen choice.now.at choice.now.depth) i ≡ false }
    {
        let Some(who) = self.who_asked(choice) else {
            return self.next_candidate(choice, end);
        };
        let kind = self
            .kept
            .kind_of(level_step(self.kept.steps(), choice.depth));
        self.held
            .next_of_who(who, kind, choice.at[choice.depth], end)
    }

    // The first position of a depth below the last event's: behind the one before; the first event's where the last is within the window.
    fn first_place(&self, choice: &Choice) -> usize
        requires below { 1 ≤ choice.now.depth }
        requires few { choice.now.depth < kept_count self.now.kept.words.now }
        requires last { slice_index_or choice.now.row 0 nothing ≡ nth self.now.held (slice_index choice.now.at 0) }
        requires inside { slice_index choice.now.at 0 ≤ length self.now.held }
        requires order { 1 < choice.now.depth → slice_index choice.now.at (choice.now.depth - 1) < slice_index choice.now.at 0 }
        ensures bounds { (row_lo (chosen choice.now.at choice.now.depth) ≤ result) × (result ≤ slice_index choice.now.at 0) }
        ensures passed { (upto i : ℕ) → row_lo (chosen choice.now.at choice.now.depth) ≤ i → i < result → Barren (space self.now.held (kept_pattern self.now.kept.words.now) upto) (length (kept_pattern self.now.kept.words.now).steps - 1 - choice.now.depth) (chosen choice.now.at choice.now.depth) i }
        ensures reach { choice.now.depth ≡ 1 → result < slice_index choice.now.at 0 → nat_le (slice_index_or choice.now.row 0 nothing).time ((nth self.now.held result).time + (kept_pattern self.now.kept.words.now).within) ≡ true }
        ensures behind { 1 < choice.now.depth → result ≡ slice_index choice.now.at (choice.now.depth - 1) + 1 }
    {
        if choice.depth == 1 {
            let last = choice.row[0];
            return self
                .held
                .first_in_reach(last.time, self.kept.within(), choice.at[0]);
        }
        choice.at[choice.depth - 1] + 1
    }

    // Where the positions of a depth below the last event's begin. Those of the last but one event begin where the last one stands that a
    // never without tests forbids before the last event: it would be between.
    pub fn level_start(&self, choice: &Choice) -> usize
        requires below { 1 ≤ choice.now.depth }
        requires few { choice.now.depth < kept_count self.now.kept.words.now }
        requires last { slice_index_or choice.now.row 0 nothing ≡ nth self.now.held (slice_index choice.now.at 0) }
        requires inside { slice_index choice.now.at 0 ≤ length self.now.held }
        requires order { 1 < choice.now.depth → slice_index choice.now.at (choice.now.depth - 1) < slice_index choice.now.at 0 }
        ensures bounds { (row_lo (chosen choice.now.at choice.now.depth) ≤ result) × (result ≤ slice_index choice.now.at 0) }
        ensures passed { (upto i : ℕ) → row_lo (chosen choice.now.at choice.now.depth) ≤ i → i < result → Barren (space self.now.held (kept_pattern self.now.kept.words.now) upto) (length (kept_pattern self.now.kept.words.now).steps - 1 - choice.now.depth) (chosen choice.now.at choice.now.depth) i }
    {
        let depth = choice.depth;
        let first = self.first_place(choice);
        if depth + 1 != self.kept.steps() {
            return first;
        }
        match self.kept.free_never(depth) {
            Some(kind) => self.held.last_of_kind(kind, first, choice.at[0]),
            None => first,
        }
    }

    // What is chosen at a cursor: its positions, and their events; nothing behind them.
    pub fn choice_at(&self, cursor: Cursor) -> Choice
        requires few { cursor.depth ≤ 6 }
        requires inside { (j : ℕ) → j < cursor.depth → slice_index cursor.at j < length self.now.held }
        ensures depth { result.depth ≡ cursor.depth }
        ensures at { result.at ≡ cursor.at }
        ensures events { (j : ℕ) → j < cursor.depth → slice_index_or result.row j nothing ≡ nth self.now.held (slice_index cursor.at j) }
        ensures behind { (j : ℕ) → cursor.depth ≤ j → slice_index_or result.row j nothing ≡ nothing }
    {
        let Cursor { depth, at } = cursor;
        let row = array::from_fn(|j| {
            if j < depth {
                self.held.get(at[j])
            } else {
                Event::NOTHING
            }
        });
        Choice { depth, at, row }
    }
}
