// Why a program ends with status 1, how it ends then, and the reading of a pattern's file.
ghost use Rattle.std.specs.Prelude.{◌≡◌, true, false, not, is_ok, is_some, IfErr};
ghost use Rattle.std.specs.Process.{exit_status};
ghost use Rattle.files.specs.Failures.{OfReading};
ghost use Rattle.files.specs.declared.failing.Failed.TheVariants.{Memory, Output};

use crate::bytes::numbers;
use crate::faults::Fault;
use crate::source::read;
use std::alloc::{AllocError, AllocFailed};
use std::process::ExitCode;
use std::{fmt, io};

#[derive(Debug, Drop)]
pub enum Failed {
    // It was said already.
    Said,
    Memory,
    Output,
}

// By hand, since a `From` that `thiserror` writes has no `from_gives`: `read_file`'s clause names what an error becomes.
impl From<AllocError> for Failed {
    ghost from_gives = { λ _ r. r ≡ Memory };

    fn from(_e: AllocError) -> Failed {
        Failed::Memory
    }
}

impl<T: Drop> From<AllocFailed<T>> for Failed {
    ghost from_gives = { λ _ r. r ≡ Memory };

    fn from(_e: AllocFailed<T>) -> Failed {
        Failed::Memory
    }
}

impl From<io::Error> for Failed {
    ghost from_gives = { λ _ r. r ≡ Output };

    fn from(_e: io::Error) -> Failed {
        Failed::Output
    }
}

// The status that a program ends with: 0, or 1 after an error. What failed was said where it failed, but for want of memory.
pub fn ending(rt: &HostRuntime, program: &str, outcome: Result<(), Failed>) -> ExitCode
    ensures success { is_ok outcome ≡ true → exit_status result ≡ 0 }
    ensures failure { is_ok outcome ≡ false → exit_status result ≡ 1 }
{
    match outcome {
        Ok(()) => ExitCode::SUCCESS,
        Err(Failed::Memory) => {
            let _ = eprintln!(rt; "{program}: there is not enough memory");
            ExitCode::FAILURE
        }
        Err(Failed::Said | Failed::Output) => ExitCode::FAILURE,
    }
}

// Says on standard error what is wrong with something of this name: how a program fails that has said so.
pub fn said<D: fmt::Display>(rt: &HostRuntime, name: &str, wrong: &D) -> Failed
    ensures { OfReading result }
{
    match eprintln!(rt; "{name}: {wrong}") {
        Ok(()) => Failed::Said,
        Err(_) => Failed::Output,
    }
}

// Whether a file of events was whole, or where it went wrong, said on standard error.
pub fn without_fault(rt: &HostRuntime, path: &str, fault: Option<Fault>) -> Result<(), Failed>
    ensures success { is_ok result ≡ not (is_some fault) }
    ensures failure { IfErr result OfReading }
{
    match fault {
        Some(fault) => Err(said(rt, path, &fault)),
        None => Ok(()),
    }
}

// The bytes of a file, or why they can't be read, said on standard error.
pub fn read_file(rt: &HostRuntime, path: &str) -> Result<Vec<u8>, Failed>
    ensures { IfErr result OfReading }
{
    read(rt, path).map_err(|e| said(rt, path, &e))
}

// The numbers of a pattern's file, or what is wrong with it, said on standard error.
pub fn read_pattern(rt: &HostRuntime, path: &str) -> Result<Vec<u64>, Failed> {
    let bytes = read_file(rt, path)?;
    let Some(row) = numbers(rt.alloc(), &bytes)? else {
        let length = bytes.len();
        let wrong = format_args!("{length} bytes are no whole number of numbers of 8 bytes");
        return Err(said(rt, path, &wrong));
    };
    Ok(row)
}
