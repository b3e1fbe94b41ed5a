// The answer told: a sentence, and a strip for each day.
use lines::Line;
use lines::streams::{Stream, Streams};
use scan_day::passing::{CELLS, DAYS, Passed};
use scan_day::picture;
use scan_says::system::System;
use scan_says::{Sentence, tell};
use scan_stretches::going::Going;
use scan_stretches::told::in_stretches;
use std::env::Env;

// Where a column stands: the number of its first day, and its seconds counted from that day's beginning. Pages
// are named for those before `shown`.
#[derive(Clone, Copy)]
pub struct Span {
    pub day: u32,
    pub from: usize,
    pub end: usize,
    pub shown: usize,
}

// The sentence alone, beside numbers on standard output.
pub fn summed_up<R>(system: &System<R>, span: Span, passed: Passed) {
    picture::sentence(span.day, passed).write(&system.streams, Stream::Errors);
}

// The same beside stretches, with how many there are.
pub fn summed_up_in_stretches<R>(system: &System<R>, span: Span, passed: Passed, going: Going) {
    let line = picture::sentence(span.day, passed);
    if passed.count == 0 {
        line.write(&system.streams, Stream::Errors);
        return;
    }
    line.part(&system.streams, Stream::Errors);
    in_stretches(going.count, going.gap).write(&system.streams, Stream::Errors);
}

pub fn drawn<R: Env>(
    system: &System<R>,
    span: Span,
    passed: Passed,
    answered: &[u32; CELLS],
    selected: &[u32; CELLS],
) {
    let streams = &system.streams;
    let line = picture::sentence(span.day, passed)
        .end(streams)
        .words(b"00 01 02 03 04 05 06 07 08 09 10 11 12 13 14 15 16 17 18 19 20 21 22 23")
        .end(streams);
    let are_drawn = strips(streams, span, answered, selected);
    let last = line
        .words(b"20 minutes each: blank none, . : + by thirds, # all, ? not answered, - no entry")
        .end(streams);
    if last.lost || !are_drawn {
        tell(system, Sentence::Unwritten);
    }
}

// A strip for each day that a page is named for, and one if there is none; false where one cannot be written.
fn strips(streams: &Streams, span: Span, answered: &[u32; CELLS], selected: &[u32; CELLS]) -> bool {
    let days = days_of(span.shown).min(DAYS);
    let mut are_drawn = true;
    for day in 0..days {
        let strip = picture::strip(day, span.from, span.end, answered, selected);
        let line = labelled(strip, span.day as u64 + day as u64, days).end(streams);
        are_drawn = are_drawn && !line.lost;
    }
    are_drawn
}

// How many days the seconds before one lie on.
fn days_of(second: usize) -> usize {
    second.saturating_sub(1) / 86400 + 1
}

// With its day, unless the first is the only one.
fn labelled(strip: Line, day: u64, days: usize) -> Line {
    if day == 1 && days == 1 {
        return strip;
    }
    strip.words(b"  day ").number(day)
}
