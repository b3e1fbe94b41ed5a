// The numbers of the selected seconds, a line each, on standard output.
use bitmaps::is_set;
use lines::Line;
use lines::streams::Streams;
use scan_says::system::System;
use scan_says::{Sentence, tell};
use std::env::Env;

// Numbers that are not written yet, ten at most, so that one call of the system writes them.
#[derive(Drop)]
struct Numbers {
    text: Line,
    held: usize,
}

// Those of a page, from entry `start` to before `end`; false where they cannot be written, which is said.
pub fn listed<R: Env>(system: &System<R>, bitmap: &[u8], start: usize, end: usize) -> bool {
    let mut numbers = Numbers {
        text: Line::new(),
        held: 0,
    };
    for entry in start..end {
        if is_set(bitmap, entry - start) {
            numbers = with_one(&system.streams, numbers, entry);
        }
    }
    let last = written(&system.streams, numbers);
    if last.lost {
        return tell(system, Sentence::Unwritten);
    }
    true
}

fn with_one(streams: &Streams, numbers: Numbers, entry: usize) -> Numbers {
    let text = numbers.text;
    let text = if numbers.held == 0 {
        text
    } else {
        text.words(b"\n")
    };
    let text = text.number(entry as u64);
    if numbers.held < 9 {
        return Numbers {
            text,
            held: numbers.held + 1,
        };
    }
    Numbers {
        text: text.end(streams),
        held: 0,
    }
}

// The next line, empty.
fn written(streams: &Streams, numbers: Numbers) -> Line {
    let text = numbers.text;
    if numbers.held == 0 {
        return text;
    }
    text.end(streams)
}
