// Lines of a text: the last one of some bytes, and where a line ends.
ghost use Rattle.std.specs.Prelude.{◌≡◌, ◌+◌, ◌^◌, ◌<◌, ◌≤◌, length};
ghost use Rattle.files.specs.Lines.{line_past, line_of, line_rest, without_white};

use syntax::is_white;

const LINE_FEED: u8 = b'\n';

#[derive(Clone, Copy)]
pub struct Line {
    // From 1 on; as wide, since a text that is all line feeds ends in a line more than it has bytes.
    pub number: u128,
    // The place of its first byte.
    pub start: usize,
}

impl Line {
    // The line behind one more byte.
    fn past(self, place: usize, byte: u8) -> Line
        requires { (place + 1 < 2 ^ 64) × ((self.number ≤ place + 1) × (self.start ≤ place)) }
        ensures value { result ≡ line_past self place byte }
        ensures bound { (result.number ≤ place + 2) × (result.start ≤ place + 1) }
    {
        if byte == LINE_FEED {
            Line {
                number: self.number + 1,
                start: place + 1,
            }
        } else {
            self
        }
    }

    // The line in which some bytes end.
    pub fn last_of(bytes: &[u8]) -> Line
        ensures value { result ≡ line_of bytes.now }
        ensures bound { result.start ≤ length bytes.now }
    {
        let mut line = Line {
            number: 1,
            start: 0,
        };
        for (i, byte) in bytes.iter().enumerate() {
            line = line.past(i, *byte);
        }
        line
    }
}

// How many bytes stand in front of the first line feed.
pub fn line_rest(bytes: &[u8]) -> usize
    ensures value { result ≡ line_rest bytes.now }
    ensures bound { result ≤ length bytes.now }
{
    let found = bytes.iter().position(|byte| *byte == LINE_FEED);
    found.unwrap_or(bytes.len())
}

// How many bytes there are without the white ones at their end. By a match: that `last + 1` fits is known beside it.
pub fn without_white(bytes: &[u8]) -> usize
    ensures value { result ≡ without_white bytes.now (length bytes.now) }
    ensures bound { result ≤ length bytes.now }
{
    match bytes.iter().rposition(|byte| !is_white(*byte)) {
        Some(last) => last + 1,
        None => 0,
    }
}
