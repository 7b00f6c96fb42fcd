// Rows as text.
ghost use Rattle.std.specs.Prelude.{◌≡◌, ◌++◌, IfOk, OnOk, Some, string_bytes};
ghost use Rattle.files.specs.Text.{spaced};

use std::alloc::{AllocError, Global};
use std::fmt;
use std::io::Write;

// A row's numbers, as text with a space between.
#[derive(Clone, Copy)]
pub struct Spaced<'a>(pub &'a [u64]);

impl fmt::Display for Spaced<'_> {
    ghost output = { λ r. Some (spaced r.0.now) };

    fn fmt<W: fmt::Write>(&self, f: &mut fmt::Formatter<W>) -> fmt::Result {
        let Some((first, others)) = self.0.split_first() else {
            return Ok(());
        };
        write!(f, "{first}")?;
        for n in others {
            write!(f, " {n}")?;
        }
        Ok(())
    }
}

pub fn line(heap: Global, row: &[u64]) -> Result<String, AllocError>
    ensures { IfOk result (λ s. string_bytes s ≡ spaced row.now) }
{
    let row = Spaced(row);
    format!(in heap; "{row}")
}

// The same behind a text, straight into it. It is for others: no program here calls it.
pub fn push_line(text: &mut Vec<u8>, row: &[u64]) -> Result<(), AllocError>
    ensures { OnOk result (text.new.items ≡ text.old.items ++ spaced row.now) }
{
    text.write_fmt(Spaced(row)).map_err(|_| AllocError)
}
