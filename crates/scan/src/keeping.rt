// The file that keeps the bitmap of all pages: opened when they are read, and never one of them.
use crate::same_file;
use scan_day::seconds::{bitmap_bytes, entries_of, start_of};
use scan_question::options::Asked;
use scan_says::system::System;
use scan_says::{Sentence, failed, tell};
use std::env::Env;
use std::fs::{Files, OpenFile, OpenOptions};
use std::io::Write;

// The place of a file to be read that has the bitmap's name, of those whose names stand at some places.
pub fn named<R: Env>(system: &System<R>, asked: Asked, words: &[usize]) -> Option<usize> {
    let name = asked.bitmap?;
    let mut word = io::buffer();
    let n = system.arg(name.at, &mut word);
    if n < name.from {
        return None;
    }
    words
        .iter()
        .find(|at| is_word(system, &word[name.from..n], **at))
        .copied()
}

fn is_word<R: Env>(system: &System<R>, name: &[u8], at: usize) -> bool {
    let mut word = io::buffer();
    let n = system.arg(at, &mut word);
    name == &word[..n]
}

// The bytes of the pages, where a file is asked for; a refused page's are 0. The first word names the
// dictionary, or a page as the others do.
pub fn kept<R: Env + Files>(
    system: &System<R>,
    asked: Asked,
    entries: usize,
    first: usize,
    pages: &[usize],
    bitmap: &[u8],
) {
    let Some(name) = asked.bitmap else {
        return;
    };
    let mut word = io::buffer();
    let n = system.arg(name.at, &mut word);
    let size = size_of(entries, pages.len());
    if n < name.from || bitmap.len() < size || system.streams.is_closed() {
        return;
    }
    let Some(mut file) = opened(system, &word[name.from..n], first, pages) else {
        return;
    };
    if let Err(error) = file.write_all(&bitmap[..size]) {
        system.streams.fails(error);
        failed(system, b"scan: the bitmap cannot be written", error);
    }
}

fn size_of(entries: usize, pages: usize) -> usize {
    if pages == 0 {
        return 0;
    }
    start_of(pages - 1) / 8 + bitmap_bytes(entries_of(pages - 1, entries))
}

// None where the file cannot be had, which is said. One that is there is emptied when it is known to be
// none that was read.
fn opened<R: Env + Files>(
    system: &System<R>,
    name: &[u8],
    first: usize,
    pages: &[usize],
) -> Option<R::File> {
    let Ok(file) = system.open(OpenOptions::new().append(true), name) else {
        return made(system, name);
    };
    if is_read(system, &file, first, pages) {
        return None;
    }
    let _is_emptied = file.set_len(0);
    Some(file)
}

fn made<R: Env + Files>(system: &System<R>, name: &[u8]) -> Option<R::File> {
    let mut how = OpenOptions::new();
    match system.open(how.write(true).create(true).truncate(true), name) {
        Ok(file) => Some(file),
        Err(error) => {
            failed(system, name, error);
            None
        }
    }
}

// Is an open file one that was read; that is said.
fn is_read<R: Env + Files>(
    system: &System<R>,
    file: &R::File,
    first: usize,
    pages: &[usize],
) -> bool {
    let Ok(known) = file.metadata() else {
        return false;
    };
    if same_file::is_word(system, &known, first) {
        return !tell(system, Sentence::OverPage(first));
    }
    match pages
        .iter()
        .find(|at| same_file::is_word(system, &known, **at))
    {
        None => false,
        Some(at) => !tell(system, Sentence::OverPage(*at)),
    }
}
