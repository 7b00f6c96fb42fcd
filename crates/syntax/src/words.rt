// The words and marks of a typed pattern, and which bytes are white, digits and letters.
ghost use Rattle.std.specs.Prelude.{◌≡◌, ◌<◌};
ghost use Rattle.syntax.specs.Words.{white, digit, spelling, field_begun};

use patterns::Field;

// What is spelled with more than one byte.
#[derive(Clone, Copy, PartialEq, Eq, Debug)]
pub enum Word {
    Not,
    Where,
    And,
    Within,
    Late,
    Of(Field),
    // `>=`
    AtLeast,
}

impl Word {
    pub fn text(self) -> &'static str
        ensures { result.now ≡ spelling self }
    {
        match self {
            Word::Not => "not",
            Word::Where => "where",
            Word::And => "and",
            Word::Within => "within",
            Word::Late => "late",
            Word::Of(Field::Who) => "who",
            Word::Of(Field::Value) => "value",
            Word::Of(Field::Time) => "time",
            Word::AtLeast => ">=",
        }
    }

    pub fn letters(self) -> &'static [u8]
        ensures { result.now ≡ spelling self }
    {
        self.text().as_bytes()
    }
}

// Spaces, tabs and line ends.
pub fn is_white(byte: u8) -> bool
    ensures { result ≡ white byte }
{
    matches!(byte, b' ' | b'\t' | b'\n' | b'\r')
}

pub fn is_digit(byte: u8) -> bool
    ensures { result ≡ digit byte }
{
    byte.is_ascii_digit()
}

// The field whose word begins with a byte.
pub fn field_begun(byte: u8) -> Option<Field>
    ensures { result ≡ field_begun byte }
{
    match byte {
        b'w' => Some(Field::Who),
        b'v' => Some(Field::Value),
        b't' => Some(Field::Time),
        _ => None,
    }
}
