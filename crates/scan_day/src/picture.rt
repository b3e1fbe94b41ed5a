// What the answer looks like: a sentence, and a strip that pictures each day.
ghost use Rattle.std.specs.Prelude.{◌≡◌, [], ◌-◌, ◌<◌, min};
ghost use Rattle.lines.specs.Text.{held, laid};
ghost use Rattle.scan_day.specs.Picture.{seconds_of, by_thirds, cell_of, strip_of};
ghost use Rattle.scan_day.specs.Sentence.{sentence_of};

use crate::clocks::clock;
use crate::passing::{CELL, CELLS, DAY_CELLS, Passed};
use lines::Line;

// How many of the seconds that were read are selected, and the ends of them; the column begins on a day.
pub fn sentence(day: u32, passed: Passed) -> Line
    ensures { held result ≡ laid [] (sentence_of day passed) }
{
    if passed.read == 0 {
        return Line::new().words(b"no second was read");
    }
    let Some(ends) = passed.ends else {
        return Line::new()
            .words(b"none of ")
            .number(passed.read as u64)
            .words(b" seconds selected");
    };
    let line = Line::new()
        .number(passed.count as u64)
        .words(b" of ")
        .number(passed.read as u64);
    let from = clock(
        line.words(b" seconds selected, the first at "),
        day,
        ends.first,
    );
    clock(from.words(b", the last at "), day, ends.last)
}

// How many of the column's seconds, which are those from `from` to before `end`, lie in a cell.
fn seconds_of(cell: usize, from: usize, end: usize) -> u32
    requires { cell < 14040 }
    ensures { result ≡ seconds_of cell from end }
{
    let start = cell * CELL;
    below(end, start).saturating_sub(below(from, start)) as u32
}

// How many seconds of a cell lie before a second.
fn below(second: usize, start: usize) -> usize
    ensures { result ≡ min (second - start) 1200 }
{
    second.saturating_sub(start).min(CELL)
}

// A cell of so many seconds, of which some were answered and some of these selected.
#[tactic(auto, unfolding(crate::specs::Picture::cell_of))]
fn drawn_cell(seconds: u32, answered: u32, selected: u32) -> u8
    ensures { result ≡ cell_of seconds answered selected }
{
    if seconds == 0 {
        b'-'
    } else if answered < seconds {
        b'?'
    } else if selected == 0 {
        b' '
    } else if seconds <= selected {
        b'#'
    } else {
        by_thirds(seconds, selected)
    }
}

// Some of a cell's seconds, but not all.
#[tactic(auto, unfolding(crate::specs::Picture::by_thirds))]
fn by_thirds(seconds: u32, selected: u32) -> u8
    ensures { result ≡ by_thirds seconds selected }
{
    let third = seconds / 3;
    if selected <= third {
        b'.'
    } else if selected <= 2 * third {
        b':'
    } else {
        b'+'
    }
}

// The strip of a day's cells, the column's first day being 0.
pub fn strip(
    day: usize,
    from: usize,
    end: usize,
    answered: &[u32; CELLS],
    selected: &[u32; CELLS],
) -> Line
    requires { day < 195 }
    ensures { held result
        ≡ laid [] (strip_of day from end answered.now selected.now) }
{
    let mut line = Line::new();
    for c in 0..DAY_CELLS {
        let cell = day * DAY_CELLS + c;
        let seconds = seconds_of(cell, from, end);
        line = line.words(&[drawn_cell(seconds, answered[cell], selected[cell])]);
    }
    line
}
