// What tests compare, and how: fields and signs, and the numbers that they have in a pattern.
ghost use Rattle.std.specs.Prelude.{◌≡◌, ℕ};
ghost use Rattle.patterns.specs.Patterns.{field, compared};
ghost use Rattle.patterns.specs.Codes.{field_numbered, field_number, sign_numbered, sign_number};

use timeline::Event;

#[derive(Clone, Copy, PartialEq, Eq, Debug)]
pub enum Field {
    Who,
    Value,
    Time,
}

// 0 is who, 1 the value, any other the time.
impl From<u64> for Field {
    ghost from_gives = { λ number result. result ≡ field_numbered number };

    fn from(number: u64) -> Field
        ensures same { result ≡ field_numbered number }
        ensures means { (e : Event) → field e (field_number result) ≡ field e number }
    {
        match number {
            0 => Field::Who,
            1 => Field::Value,
            _ => Field::Time,
        }
    }
}

impl From<Field> for u64 {
    ghost from_gives = { λ field result. result ≡ field_number field };

    fn from(field: Field) -> u64 {
        match field {
            Field::Who => 0,
            Field::Value => 1,
            Field::Time => 2,
        }
    }
}

impl Field {
    pub fn of(self, e: Event) -> u64
        ensures { result ≡ field e (field_number self) }
    {
        match self {
            Field::Who => e.who,
            Field::Value => e.value,
            Field::Time => e.time,
        }
    }
}

#[derive(Clone, Copy, PartialEq, Eq, Debug)]
pub enum Sign {
    Equal,
    Below,
    NotBelow,
}

// 0 is equal, 1 below, any other not below.
impl From<u64> for Sign {
    ghost from_gives = { λ number result. result ≡ sign_numbered number };

    fn from(number: u64) -> Sign
        ensures same { result ≡ sign_numbered number }
        ensures means { (a b : ℕ) → compared (sign_number result) a b ≡ compared number a b }
    {
        match number {
            0 => Sign::Equal,
            1 => Sign::Below,
            _ => Sign::NotBelow,
        }
    }
}

impl From<Sign> for u64 {
    ghost from_gives = { λ sign result. result ≡ sign_number sign };

    fn from(sign: Sign) -> u64 {
        match sign {
            Sign::Equal => 0,
            Sign::Below => 1,
            Sign::NotBelow => 2,
        }
    }
}

impl Sign {
    pub fn holds(self, left: u64, right: u64) -> bool
        ensures { result ≡ compared (sign_number self) left right }
    {
        match self {
            Sign::Equal => left == right,
            Sign::Below => left < right,
            Sign::NotBelow => left >= right,
        }
    }
}
