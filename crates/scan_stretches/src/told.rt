// A stretch by the clock, and the end of the sentence that tells how many there are.
ghost use Rattle.std.specs.Prelude.{◌≡◌, [], cond, ◌-◌, eqb};
ghost use Rattle.lines.specs.Text.{held, laid};
ghost use Rattle.scan_stretches.specs.Told.{first_day, time_of, behind_time, stretch_of};
ghost use Rattle.scan_stretches.specs.Told.{gaps_closed, in_stretches};

use crate::going::Stretch;
use lines::Line;
use scan_day::clocks::clock;

// The first day, which a time leaves out, where a column has several.
fn first_day(line: Line, day: u64, has_days: bool) -> Line
    ensures { held result ≡ laid (held line) (first_day has_days day) }
{
    if has_days && day == 1 {
        line.words(b" of day 1")
    } else {
        line
    }
}

// A second by the clock, with its day where the column has several.
fn time(line: Line, day: u32, second: usize, has_days: bool) -> Line
    ensures { held result ≡ laid (held line) (time_of has_days day second) }
{
    first_day(
        clock(line, day, second),
        day as u64 + (second / 86400) as u64,
        has_days,
    )
}

// What stands behind a time: `?` where the stretch may go on there, since no page answered for that.
#[tactic(auto, unfolding(crate::specs::Told::behind_time, lines::specs::Text::ascii))]
fn behind_time(line: Line, may_go_on: bool) -> Line
    ensures { held result ≡ laid (held line) (behind_time may_go_on) }
{
    line.words(if may_go_on { b"? " } else { b"  " })
}

// The line of a stretch; the column begins on a day, and may have several.
pub fn stretch(has_days: bool, day: u32, stretch: Stretch, may_end_later: bool) -> Line
    ensures { held result
        ≡ laid []
        (stretch_of has_days day stretch.first stretch.behind stretch.may_begin_earlier may_end_later) }
{
    let Stretch {
        first,
        behind,
        may_begin_earlier,
    } = stretch;
    let begun = behind_time(time(Line::new(), day, first, has_days), may_begin_earlier);
    let last = behind.saturating_sub(1);
    let ended = behind_time(time(begun, day, last, has_days), may_end_later);
    ended
        .number(behind.saturating_sub(first) as u64)
        .words(b" s\n")
}

// One word for one, and another for any other number.
fn one_or_more(line: Line, n: usize, one: &[u8], more: &[u8]) -> Line
    ensures { held result
        ≡ laid (held line) (cond (eqb n 1) one.now more.now) }
{
    line.words(if n == 1 { one } else { more })
}

// Which gaps are closed, if any are.
fn gaps_closed(line: Line, gap: usize) -> Line
    ensures { held result ≡ laid (held line) (gaps_closed gap) }
{
    if gap == 0 {
        return line;
    }
    let number = line.words(b", gaps of up to ").number(gap as u64);
    one_or_more(number, gap, b" second closed", b" seconds closed")
}

// The end of a sentence: how many stretches there are, and which gaps are closed in them.
pub fn in_stretches(count: usize, gap: usize) -> Line
    ensures { held result ≡ laid [] (in_stretches count gap) }
{
    let number = Line::new().words(b", in ").number(count as u64);
    gaps_closed(one_or_more(number, count, b" stretch", b" stretches"), gap)
}
