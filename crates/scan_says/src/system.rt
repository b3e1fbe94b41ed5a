// What the program has of the system: the words typed, files by their names, and the streams it writes.
ghost use Rattle.std.specs.Prelude.{◌≤◌};
ghost use Rattle.io.specs.Counts.{IsPrefixLen};

use lines::streams::Streams;
use std::env::{Env, FillError};
use std::fs::{Files, Metadata, OpenOptions, metadata};
use std::io::{Error, Result};
use std::str::from_utf8;

#[derive(Drop)]
pub struct System<R> {
    pub rt: R,
    pub streams: Streams,
}

impl<R: Env> System<R> {
    // How many words there are, the program's name among them.
    pub fn arg_count(&self) -> usize {
        let mut start = [0u8; 1];
        for at in 0..usize::MAX {
            if let Err(FillError::NotPresent) = self.rt.arg(at, &mut start) {
                return at;
            }
        }
        usize::MAX
    }

    // Puts a word at the beginning of the places, and tells its length: 0 where it is missing or longer than
    // they are. Of one that is too long, its beginning is put there.
    pub fn arg(&self, at: usize, places: &mut [u8]) -> usize
        ensures { IsPrefixLen result places.new }
    {
        match self.rt.arg(at, places) {
            Ok(n) => n,
            Err(_) => 0,
        }
    }
}

// What the system says of bytes that are no text.
const NO_TEXT: i32 = 84;

// A file's name, which has to be text, as the library asks.
fn path(name: &[u8]) -> Result<&str> {
    from_utf8(name).map_err(|_| Error::from_raw_os_error(NO_TEXT))
}

impl<R: Files> System<R> {
    pub fn open(&self, how: &OpenOptions, name: &[u8]) -> Result<R::File> {
        how.open(&self.rt, path(name)?)
    }

    pub fn metadata(&self, name: &[u8]) -> Result<Metadata> {
        metadata(&self.rt, path(name)?)
    }
}
