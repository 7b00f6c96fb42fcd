// Events from bytes.
ghost use Rattle.std.specs.Prelude.{◌≡◌, [], is_ok, IfOk};
ghost use Rattle.patterns.specs.Limits.{an_event};
ghost use Rattle.files.specs.Events.{event_in, events_in, front_of, sound, fault_from, fault_in};

use crate::bytes::{NUMBER_BYTES, number};
use crate::faults::{Fault, too_large};
use std::alloc::{AllocError, Global};
use std::array;
use timeline::Event;

// How many bytes an event has.
pub const EVENT_BYTES: usize = 32;

// The event of a number that 32 bytes say: its time, its kind, who and its value.
pub fn event(heard: u64, bytes: &[u8; EVENT_BYTES]) -> Event
    ensures { result ≡ event_in heard bytes.now }
{
    let (numbers, _) = bytes.as_chunks::<NUMBER_BYTES>();
    let [time, kind, who, value]: [u64; 4] = array::from_fn(|i| number(numbers[i]));
    Event {
        heard,
        time,
        kind,
        who,
        value,
    }
}

// The same where it can be told of, or why not.
pub fn sound_event(heard: u64, bytes: &[u8; EVENT_BYTES]) -> Result<Event, Fault>
    ensures value { result ≡ sound (event_in heard bytes.now) }
    ensures test { is_ok result ≡ an_event (event_in heard bytes.now) }
{
    let event = event(heard, bytes);
    match too_large(event) {
        Some(part) => Err(Fault::TooLarge(heard, part)),
        None => Ok(event),
    }
}

// An event of which only so many bytes are there; none where that is none.
#[tactic(auto, unfolding(crate::specs::Events::fault_from))]
pub fn cut_off(event: u64, left: usize) -> Option<Fault>
    ensures { result ≡ fault_from event [] left }
{
    if left == 0 {
        return None;
    }
    Some(Fault::CutOff(event, left as u64))
}

// What bytes say: the events, numbered from 0, up to where it goes wrong, and how. No `Result`: both are wanted, since the events in front
// of a fault are told before it is.
#[derive(Drop)]
pub struct Reading {
    pub events: Vec<Event>,
    pub fault: Option<Fault>,
}

pub fn events(heap: Global, bytes: &[u8]) -> Result<Reading, AllocError>
    ensures { IfOk result (λ x. (x.events.items ≡ front_of (events_in bytes.now)) × (x.fault ≡ fault_in bytes.now)) }
{
    let (whole, left) = bytes.as_chunks::<EVENT_BYTES>();
    let mut events = Vec::new(heap);
    for (i, one) in whole.iter().enumerate() {
        match sound_event(i as u64, one) {
            Ok(event) => events.push(event)?,
            Err(fault) => {
                let fault = Some(fault);
                return Ok(Reading { events, fault });
            }
        }
    }
    let fault = cut_off(whole.len() as u64, left.len());
    Ok(Reading { events, fault })
}
