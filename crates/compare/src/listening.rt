// The listener, told of one thing after the other.
use crate::said::{End, Row, Said, UNTOUCHED};
use crate::shapes::MOST_STEPS;
use listener::{Call, MEMORY_LONG, Told, step};
use std::alloc::{AllocError, Global};
use timeline::Event;

// Where in its memory it says in which slot the ring begins.
const START_AT: usize = 3;

// No case has more rows at one event.
const MOST_ROWS: u64 = 1_000_000;

#[derive(Drop)]
pub struct Listening {
    heap: Global,
    memory: Vec<u64>,
}

impl Listening {
    pub fn new(heap: Global) -> Result<Listening, AllocError> {
        Ok(Listening {
            heap,
            memory: vec![in heap; 0; MEMORY_LONG]?,
        })
    }

    // One act: a row that is told is put behind the others, and any other is the end.
    fn act(
        &mut self,
        call: Call,
        row: &[u64],
        rows: &mut Vec<Row>,
    ) -> Result<Option<End>, AllocError> {
        let mut numbers = [UNTOUCHED; MOST_STEPS];
        let end = match step(&mut self.memory, u64::from(call), row, &mut numbers) {
            Ok(Told::Row(many)) => {
                rows.push(Row { many, numbers })?;
                return Ok(None);
            }
            Ok(Told::Waits) => End::Waits,
            Ok(Told::Late) => End::Late,
            Ok(Told::Over) => End::Over,
            Err(refusal) => End::Refused(refusal),
        };
        Ok(Some(end))
    }

    // One thing that it is told, and all that it says then.
    fn tell(&mut self, call: Call, row: &[u64]) -> Result<Said, AllocError> {
        let mut rows = Vec::new(self.heap);
        let mut ended = self.act(call, row, &mut rows)?;
        for _ in 0..MOST_ROWS {
            if let Some(end) = ended {
                return Ok(Said { rows, end });
            }
            ended = self.act(Call::Next, &[], &mut rows)?;
        }
        Ok(Said {
            rows,
            end: End::Endless,
        })
    }

    // A new listener is given a pattern. If it takes it, its ring is made to begin at a slot, as if events had been held and forgotten.
    pub fn begin(&mut self, pattern: &[u64], start: u64) -> Result<Said, AllocError> {
        self.memory.fill(0);
        let said = self.tell(Call::Pattern, pattern)?;
        if said.end == End::Waits
            && let Some(place) = self.memory.get_mut(START_AT)
        {
            *place = start;
        }
        Ok(said)
    }

    pub fn hear(&mut self, e: Event) -> Result<Said, AllocError> {
        self.tell(Call::Event, &[e.time, e.kind, e.who, e.value])
    }

    pub fn finish(&mut self) -> Result<Said, AllocError> {
        self.tell(Call::End, &[])
    }
}
