// A second by the clock and, past the first day, its day.
ghost use Rattle.std.specs.Prelude.{◌≡◌};
ghost use Rattle.lines.specs.Text.{held, laid};
ghost use Rattle.scan_day.specs.Clock.{two_digits, clock_time, of_day};

use lines::Line;

// Two digits, also of numbers below ten.
fn two_digits(line: Line, n: usize) -> Line
    ensures { held result ≡ laid (held line) (two_digits n) }
{
    if n < 10 {
        line.words(b"0").number(n as u64)
    } else {
        line.number(n as u64)
    }
}

// A day by its number; the first goes without saying.
fn of_day(line: Line, day: u64) -> Line
    ensures { held result ≡ laid (held line) (of_day day) }
{
    if day == 1 {
        line
    } else {
        line.words(b" of day ").number(day)
    }
}

// Hour, minute and second of a second, which are counted from the beginning of a day.
pub fn clock(line: Line, day: u32, second: usize) -> Line
    ensures { held result ≡ laid (held line) (clock_time day second) }
{
    let hours = two_digits(line, second / 3600 % 24).words(b":");
    let minutes = two_digits(hours, second / 60 % 60).words(b":");
    let time = two_digits(minutes, second % 60);
    of_day(time, day as u64 + (second / 86400) as u64)
}
