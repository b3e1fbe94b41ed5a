// Whether a name stands for an open file: by the device and the node that the system has for it.
use scan_says::system::System;
use std::env::Env;
use std::fs::{Files, Metadata};
use std::os::unix::fs::MetadataExt;

// Is the file that a word names the one that this is known of.
pub fn is_word<R: Env + Files>(system: &System<R>, known: &Metadata, at: usize) -> bool {
    let mut word = io::buffer();
    let n = system.arg(at, &mut word);
    match system.metadata(&word[..n]) {
        Ok(own) => known.dev() == own.dev() && known.ino() == own.ino(),
        Err(_) => false,
    }
}
