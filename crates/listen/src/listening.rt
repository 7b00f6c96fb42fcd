// The listener, told of events in bytes, and what it says as text.
#[cfg(test)]
mod tests;

use files::{EVENT_BYTES, Failed, Fault, Spaced, cut_off, sound_event};
use listener::{Call, MEMORY_LONG, Told, step};
use std::alloc::{AllocError, Global};
use std::io::Write;

// A row has at most so many numbers.
const ROW: usize = 6;

#[derive(Drop)]
pub struct Listening {
    memory: Vec<u64>,
    // How many events came.
    count: u64,
    // What is not yet written: whole lines alone.
    text: String,
    // Where the events went wrong, if they did.
    pub fault: Option<Fault>,
}

impl Listening {
    pub fn new(heap: Global) -> Result<Listening, AllocError> {
        Ok(Listening {
            memory: vec![in heap; 0; MEMORY_LONG]?,
            count: 0,
            text: String::new(heap),
            fault: None,
        })
    }

    // One act of the listener, and what it says then.
    fn act(&mut self, call: Call, row: &[u64]) -> Result<Told, Failed> {
        let mut out = [0; ROW];
        let answer = step(&mut self.memory, u64::from(call), row, &mut out);
        match answer {
            Ok(Told::Row(many)) => {
                let fits = Spaced(&out[..ROW.min(many as usize)]);
                writeln!(self.text, "{fits}")?;
            }
            Ok(Told::Late) => {
                let count = self.count;
                writeln!(self.text, "late {count}")?;
            }
            Ok(Told::Waits | Told::Over) => {}
            Err(refusal) => {
                let number = u64::from(refusal);
                writeln!(self.text, "refused {number}")?;
            }
        }
        answer.map_err(|_| Failed::Said)
    }

    // One thing that the listener is told, and all that it says till it waits, is over, or refuses.
    fn tell(&mut self, call: Call, row: &[u64]) -> Result<(), Failed> {
        let mut told = self.act(call, row)?;
        // A loop needs a measure, so there is a count: no call tells of so many rows.
        for _ in 0..u64::MAX {
            let Told::Row(_) = told else {
                break;
            };
            told = self.act(Call::Next, &[])?;
        }
        Ok(())
    }

    pub fn begin(&mut self, pattern: &[u64]) -> Result<(), Failed> {
        self.tell(Call::Pattern, pattern)
    }

    pub fn finish(&mut self) -> Result<(), Failed> {
        self.tell(Call::End, &[])
    }

    // The whole events of some bytes, up to one that is wrong: the bytes that are left behind the whole ones.
    pub fn hear<'a>(&mut self, bytes: &'a [u8]) -> Result<&'a [u8], Failed> {
        let (whole, left) = bytes.as_chunks::<EVENT_BYTES>();
        for one in whole {
            match sound_event(self.count, one) {
                Ok(e) => self.tell(Call::Event, &[e.time, e.kind, e.who, e.value])?,
                Err(fault) => {
                    self.fault = Some(fault);
                    break;
                }
            }
            self.count = self.count.saturating_add(1);
        }
        Ok(left)
    }

    // An event of which only so many bytes came; a fault that there is stays where none came.
    pub fn cut_off(&mut self, left: usize) {
        if let Some(fault) = cut_off(self.count, left) {
            self.fault = Some(fault);
        }
    }

    pub fn write(&mut self, rt: &HostRuntime) -> Result<(), Failed> {
        let mut out = rt.stdout();
        out.write_all(self.text.as_bytes())?;
        out.flush()?;
        self.text.clear();
        Ok(())
    }
}
