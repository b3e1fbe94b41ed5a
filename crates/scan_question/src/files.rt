// Files named by arguments.
ghost use Rattle.std.specs.Prelude.{IfSome};
ghost use Rattle.io.specs.Counts.{IsPrefixLen};

use scan_says::system::System;
use scan_says::{Sentence, failed, tell};
use std::env::Env;
use std::fs::{Files, OpenOptions};
use std::io::Read;

// The bytes of a file, from the first lent place on, and how many they are; where they are not all of it,
// that is said.
pub fn read<R: Env + Files>(system: &System<R>, at: usize, places: &mut [u8]) -> Option<usize>
    ensures { IfSome result (λ bytes. IsPrefixLen bytes places.new) }
{
    let mut name = io::buffer();
    let n = system.arg(at, &mut name);
    match system.open(OpenOptions::new().read(true), &name[..n]) {
        Err(error) => {
            failed(system, &name[..n], error);
            None
        }
        Ok(mut file) => {
            let bytes = read_full(&mut file, places);
            ended(system, &mut file, at, &name[..n]).then_some(bytes)
        }
    }
}

// Reads until the places are full, the file ends or a read fails: how many bytes that were.
fn read_full<F: Read>(file: &mut F, places: &mut [u8]) -> usize
    ensures { IsPrefixLen result places.new }
{
    let mut done = 0;
    while done < places.len() {
        let n = file.read(&mut places[done..]).unwrap_or(0);
        if n == 0 {
            break;
        }
        done += n;
    }
    done
}

// Is the file read to its end; if not, that is said.
fn ended<R: Env, F: Read>(system: &System<R>, file: &mut F, at: usize, name: &[u8]) -> bool {
    let mut more = [0u8; 1];
    match file.read(&mut more) {
        Ok(0) => true,
        Ok(_) => tell(system, Sentence::TooLong(at)),
        Err(error) => failed(system, name, error),
    }
}
