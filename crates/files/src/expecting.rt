// What could have stood where a typed pattern is refused, in words.
ghost use Rattle.std.specs.Prelude.{◌≡◌, Some};
ghost use Rattle.files.specs.Complaints.{wanted_text, expected_text};

use std::fmt;
use syntax::Expected;

#[derive(Clone, Copy)]
pub struct Wanted(pub Expected);

// But for what hangs on the text itself.
fn in_words(expected: Expected) -> &'static str
    ensures { result.now ≡ wanted_text expected }
{
    match expected {
        Expected::KindOrNot => "a kind or `not`",
        Expected::KindNotOrWithin => "a kind, `not` or `within`",
        Expected::Kind => "a kind, a number below 2^16",
        Expected::Within => "`within`",
        Expected::Name => "a name, a small letter that no step in front has",
        Expected::NameOrEnd => "a name, a small letter that no step in front has, or `;`",
        Expected::WhereOrEnd => "`where` or `;`",
        Expected::OwnName(_) => "the name of what is tested, ",
        Expected::Dot => "`.`",
        Expected::Field => "`who`, `value` or `time`",
        Expected::Sign => "`=`, `<` or `>=`",
        Expected::OnlyNumber => "a number below 2^62",
        Expected::NumberOrName => "a number below 2^62, or the name of a step in front",
        Expected::AndOrEnd => "`and` or `;`",
        Expected::End => "`;`",
        Expected::LengthOfTime => "a time, a number below 2^40",
        Expected::Late => "`late`",
        Expected::Nothing => "nothing more",
        Expected::RestOf(_, _) => "the rest of ",
    }
}

impl fmt::Display for Wanted {
    ghost output = { λ w. Some (expected_text w.0) };

    fn fmt<W: fmt::Write>(&self, f: &mut fmt::Formatter<W>) -> fmt::Result {
        f.write_str(in_words(self.0))?;
        match self.0 {
            Expected::OwnName(name) => {
                let letter = name as char;
                write!(f, "`{letter}`")
            }
            Expected::RestOf(word, _) => {
                let text = word.text();
                write!(f, "`{text}`")
            }
            _ => Ok(()),
        }
    }
}
