// A whole column: its pages answered one after the other, their bitmap kept, and the answer told.
ghost use Rattle.std.specs.Prelude.{◌≡◌, ◌<◌, ◌≤◌, length};

use crate::listing::listed;
use crate::telling::Span;
use crate::{keeping, stretches, telling};
use scan_day::passing::{CELLS, Passed, page_passed};
use scan_day::seconds::{entries_of, needed, start_of};
use scan_page::answering;
use scan_page::layouts::Question;
use scan_question::options::Asked;
use scan_says::system::System;
use scan_says::{Sentence, tell};
use scan_stretches::pages::{Listing, begun};
use std::env::Env;
use std::fs::Files;

// Bytes of the bitmaps of 1,024 full pages, more than can be named.
const BITMAP: usize = 2097152;

fn room() -> [u8; BITMAP]
    ensures { 2097152 ≡ length result }
{
    [0; BITMAP]
}

// All pages answered, their bitmap kept, and the answer told.
pub fn answered<R: Env + Files>(
    system: &System<R>,
    q: Question,
    asked: Asked,
    entries: u32,
    first: usize,
    dictionary: &[u8],
    files: &[usize],
) {
    let mut selected = [0u32; CELLS];
    let mut answered = [0u32; CELLS];
    let mut bitmap = room();
    let column = Column {
        q,
        dictionary,
        day: asked.day.unwrap_or(1),
        from: asked.start.unwrap_or(0),
        entries,
    };
    let after = walked(
        system,
        nothing_passed(asked, column),
        column,
        files,
        &mut bitmap,
        &mut selected,
        &mut answered,
    );
    let passed = after.passed;
    let span = span(column, files.len());
    let listing = stretches::ended(system, after.stretches, span);
    keeping::kept(system, asked, entries as usize, first, files, &bitmap);
    if asked.spans {
        telling::summed_up_in_stretches(system, span, passed, listing.going);
    } else if asked.numbers {
        telling::summed_up(system, span, passed);
    } else {
        telling::drawn(system, span, passed, &answered, &selected);
    }
    told_missing(system, span, passed.lost, files.len(), entries);
}

// What is not in the answer: pages that were lost, and seconds for which none is named.
fn told_missing<R: Env>(system: &System<R>, span: Span, lost: usize, pages: usize, entries: u32) {
    if 0 < lost {
        tell(system, Sentence::Lost(lost));
    }
    if pages < needed(entries as usize) {
        tell(system, Sentence::Missing(span.day, span.shown));
    }
}

// What every page of a column is asked, its dictionary, the day and the second of its first entry, and how
// many entries it has.
#[derive(Clone, Copy)]
struct Column<'a> {
    q: Question,
    dictionary: &'a [u8],
    day: u32,
    from: u32,
    entries: u32,
}

// Where a column stands of which so many pages are named.
fn span(column: Column<'_>, pages: usize) -> Span {
    let from = column.from as usize;
    let end = from + column.entries as usize;
    Span {
        day: column.day,
        from,
        end,
        shown: (from + start_of(pages)).min(end),
    }
}

// What the pages so far leave, whether the numbers of their selected seconds are still listed, and whether
// their stretches are asked for.
#[derive(Drop)]
struct SoFar {
    passed: Passed,
    has_numbers: bool,
    has_stretches: bool,
    stretches: Listing,
}

fn nothing_passed(asked: Asked, column: Column<'_>) -> SoFar {
    let end = column.from as usize + column.entries as usize;
    SoFar {
        passed: Passed::new(),
        has_numbers: asked.numbers,
        has_stretches: asked.spans,
        stretches: begun(asked.join.unwrap_or(0), 86400 < end),
    }
}

// The pages one after the other.
fn walked<R: Env + Files>(
    system: &System<R>,
    before: SoFar,
    column: Column<'_>,
    files: &[usize],
    bitmap: &mut [u8],
    selected: &mut [u32; CELLS],
    answered: &mut [u32; CELLS],
) -> SoFar {
    let mut so_far = before;
    for (k, at) in files.iter().enumerate() {
        if system.streams.is_closed() {
            break;
        }
        so_far = page_answered(system, so_far, column, *at, k, bitmap, selected, answered);
    }
    so_far
}

// Page k, whose file the word at `at` names.
fn page_answered<R: Env + Files>(
    system: &System<R>,
    so_far: SoFar,
    column: Column<'_>,
    at: usize,
    k: usize,
    bitmap: &mut [u8],
    selected: &mut [u32; CELLS],
    answered: &mut [u32; CELLS],
) -> SoFar {
    let n = entries_of(k, column.entries as usize);
    let start = start_of(k);
    let first = column.from as usize + start;
    let place = (start / 8).min(bitmap.len());
    if !answering::answered(
        system,
        column.q,
        column.dictionary,
        at,
        n,
        &mut bitmap[place..],
    ) {
        return page_lost(system, so_far, column.day, first, first + n);
    }
    let passed = page_passed(
        so_far.passed,
        first,
        first + n,
        &bitmap[place..],
        selected,
        answered,
    );
    page_listed(
        system,
        so_far,
        passed,
        column.day,
        start,
        first,
        n,
        &bitmap[place..],
    )
}

// Seconds from one to before another are those of a page that was not answered.
fn page_lost<R: Env>(
    system: &System<R>,
    so_far: SoFar,
    day: u32,
    start: usize,
    end: usize,
) -> SoFar {
    SoFar {
        passed: so_far.passed.loses(),
        stretches: stretches::page_lost(system, so_far.stretches, day, start, end),
        ..so_far
    }
}

// The n entries of an answered page from entry `start` on, which is second `first`.
fn page_listed<R: Env>(
    system: &System<R>,
    so_far: SoFar,
    passed: Passed,
    day: u32,
    start: usize,
    first: usize,
    n: usize,
    bitmap: &[u8],
) -> SoFar
    requires { (start ≤ 16777216) × (first < 1099511627776) × (n ≤ 16384) }
{
    let has_numbers = so_far.has_numbers && listed(system, bitmap, start, start + n);
    let stretches = if so_far.has_stretches {
        stretches::page_listed(system, so_far.stretches, day, first, n, bitmap)
    } else {
        so_far.stretches
    };
    SoFar {
        passed,
        has_numbers,
        stretches,
        ..so_far
    }
}
