// Numbers from bytes.
ghost use Rattle.std.specs.Prelude.{◌≡◌, IfOk};
ghost use Rattle.files.specs.Bytes.{number_in, Numbers};

use std::alloc::{AllocError, Global};

// How many bytes a number has.
pub const NUMBER_BYTES: usize = 8;

// The number that eight bytes say.
pub fn number(bytes: [u8; NUMBER_BYTES]) -> u64
    ensures { result ≡ number_in bytes }
{
    u64::from_le_bytes(bytes)
}

// The numbers that bytes say; None where their count is no multiple of eight, which is the one thing that can be wrong with them.
pub fn numbers(heap: Global, bytes: &[u8]) -> Result<Option<Vec<u64>>, AllocError>
    ensures { IfOk result (Numbers bytes.now) }
{
    let (whole, left) = bytes.as_chunks::<NUMBER_BYTES>();
    if !left.is_empty() {
        return Ok(None);
    }
    let numbers = whole.iter().map(|eight| number(*eight)).collect(heap)?;
    Ok(Some(numbers))
}
