// The ring on small examples.
use crate::*;

fn event(heard: u64, time: u64) -> Event {
    Event {
        heard,
        time,
        kind: 1,
        who: 2,
        value: 3,
    }
}

// Late events and equal times, over the seam of the ring; what is forgotten leaves zeros.
#[test]
fn orders_over_the_seam(rt: HostRuntime) {
    let mut ring = [0u64; RING_LONG];
    let span = Span::new(CAPACITY - 2, 0).expect(&rt, "a ring has such slots");
    let span = put(&mut ring, span, event(0, 5)).expect(&rt, "there is room");
    let span = put(&mut ring, span, event(1, 7)).expect(&rt, "there is room");
    let span = put(&mut ring, span, event(2, 5)).expect(&rt, "there is room");
    let span = put(&mut ring, span, event(3, 1)).expect(&rt, "there is room");
    let (front, back) = parts(&ring, span).expect(&rt, "it is a ring");
    assert!(rt; front.len() == 10 && back.len() == 10);
    assert_eq!(rt; [front[0], front[5], back[0], back[5]], [3, 0, 2, 1]);
    let span = forget(&mut ring, span, 3).expect(&rt, "so many are held");
    assert_eq!(rt; (span.start, span.len), (1, 1));
    assert_eq!(rt; at(&ring, span, 0).expect(&rt, "one is held").time, 7);
    assert_eq!(rt;
        [ring[0], ring[1], ring[RING_LONG - 5], ring[5]],
        [0, 0, 0, 1]
    );
}

// What is refused leaves the ring as it was: full, empty, beyond the end, a slice of another length.
#[test]
fn refuses(rt: HostRuntime) {
    let mut ring = [7u64; RING_LONG];
    let full = Span::new(5, CAPACITY).expect(&rt, "a ring has such slots");
    assert!(rt; put(&mut ring, full, event(0, 9)).is_none());
    assert!(rt; forget(&mut ring, full, CAPACITY + 1).is_none());
    assert!(rt; forget(&mut ring, Span::empty(), 1).is_none());
    assert!(rt; at(&ring, full, CAPACITY).is_none());
    for n in &ring {
        assert_eq!(rt; *n, 7);
    }
    let mut short = [7u64; EVENT_NUMBERS];
    assert!(rt; put(&mut short, Span::empty(), event(0, 9)).is_none());
    assert!(rt; forget(&mut short, full, 1).is_none());
    assert!(rt; parts(&short, full).is_none());
    assert_eq!(rt; short, [7u64; EVENT_NUMBERS]);
}

// An event is its five numbers in their order, there and back.
#[test]
fn is_five_numbers(rt: HostRuntime) {
    let numbers = [4, 9, 1, 2, 3];
    let read = Event::from(numbers);
    assert_eq!(rt; read, event(4, 9));
    assert_eq!(rt; <[u64; EVENT_NUMBERS]>::from(read), numbers);
    assert!(rt; read != Event::NOTHING);
    assert_eq!(rt; Event::NOTHING, Event::from([0; EVENT_NUMBERS]));
}

// A time's place is behind its equals; a row that falls has none.
#[test]
fn places_a_time(rt: HostRuntime) {
    assert_eq!(rt; place(5, &[1, 5, 5, 9]), Ok(3));
    assert_eq!(rt; place(5, &[]), Ok(0));
    assert_eq!(rt; place(5, &[2, 1]), Err(NotRising));
    assert_eq!(rt; u64::from(NotRising), 1);
}
