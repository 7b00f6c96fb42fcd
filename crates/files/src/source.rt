// Bytes from a file, or from standard input, at once or as they come.
ghost use Rattle.std.specs.Prelude.{◌≤◌, length, IfOk, IfErr};
ghost use Rattle.files.specs.Failures.{OfReading};

use crate::failing::{Failed, said};
use std::fs::File;
use std::io::Read;
use std::{fs, io};

#[derive(Drop)]
pub enum Source {
    Path(File),
    Input,
}

impl Source {
    // A file, or standard input where the path is `-`. What there is to read no clause can say.
    fn at(rt: &HostRuntime, path: &str) -> io::Result<Source> {
        if path == "-" {
            return Ok(Source::Input);
        }
        Ok(Source::Path(fs::open(rt, path)?))
    }

    // The same, or why it can't be opened, said on standard error.
    pub fn open(rt: &HostRuntime, path: &str) -> Result<Source, Failed>
        ensures { IfErr result OfReading }
    {
        Source::at(rt, path).map_err(|e| said(rt, path, &e))
    }

    // Some bytes more in the buffer, as soon as there are some: how many, 0 at the end.
    fn read(&mut self, rt: &HostRuntime, buffer: &mut [u8]) -> io::Result<usize>
        ensures { IfOk result (λ n. n ≤ length buffer.old) }
    {
        match self {
            Source::Path(file) => file.read(buffer),
            Source::Input => rt.stdin().read(buffer),
        }
    }

    // The same, or why they can't be read, said on standard error.
    pub fn more(&mut self, rt: &HostRuntime, path: &str, buffer: &mut [u8]) -> Result<usize, Failed>
        ensures many { IfOk result (λ n. n ≤ length buffer.old) }
        ensures failure { IfErr result OfReading }
    {
        self.read(rt, buffer).map_err(|e| said(rt, path, &e))
    }

    fn read_to_end(self, rt: &HostRuntime) -> io::Result<Vec<u8>> {
        let mut bytes = Vec::new(rt.alloc());
        match self {
            Source::Path(mut file) => file.read_to_end(&mut bytes)?,
            Source::Input => rt.stdin().read_to_end(&mut bytes)?,
        };
        Ok(bytes)
    }
}

// The bytes of a file; of standard input where its path is `-`.
pub fn read(rt: &HostRuntime, path: &str) -> io::Result<Vec<u8>> {
    Source::at(rt, path)?.read_to_end(rt)
}
