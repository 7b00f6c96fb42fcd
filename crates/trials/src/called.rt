// What a program is called with.
ghost use Rattle.std.specs.Prelude.{◌^◌, ◌<◌};
ghost use Rattle.std.specs.Option.{SomeIff};
ghost use Rattle.std.specs.Str.Parse.{IsNumeral, digits_value, without_leading_plus};

use std::{env, io};

// The number that a word says in decimal.
pub fn number(word: &str) -> Option<u64>
    ensures { let digits = without_leading_plus word.now in
        SomeIff result (IsNumeral 10 digits × (digits_value 10 digits < 2 ^ 64)) (digits_value 10 digits) }
{
    word.parse::<u64>().ok()
}

// The numbers that stand behind the program's name, up to the first word that is none. Which words there are no clause can say.
pub fn numbers(rt: &HostRuntime) -> io::Result<Vec<u64>> {
    let numbers = env::args(rt)?
        .skip(1)
        .map_while(|word| number(word.as_str()))
        .collect(rt.alloc())?;
    Ok(numbers)
}
