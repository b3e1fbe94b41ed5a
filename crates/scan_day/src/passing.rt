// What is kept of the pages passed: how many seconds are selected, the first and the last, and the cells of
// the days. Seconds are counted from the beginning of the column's first day.
ghost use Rattle.std.specs.Prelude.{◌≡◌, true, ◌-◌};
ghost use Rattle.scan_day.specs.SecondsPassed.{fresh, losing, reading, selecting, passing};
ghost use Rattle.scan_day.specs.SecondsPassed.{passed, in_cell, counting, counts, chosen_by};

use bitmaps::is_set;

// Twenty minutes, and how many of them a day has.
pub const CELL: usize = 1200;

pub const DAY_CELLS: usize = 72;

// Fewer than 1,024 pages can be named: they lie on at most 195 days.
pub const DAYS: usize = 195;

pub const CELLS: usize = 14040;

// The first selected second and the last.
#[derive(Clone, Copy)]
pub struct Ends {
    pub first: usize,
    pub last: usize,
}

#[derive(Clone, Copy, Default)]
pub struct Passed {
    // seconds of pages that were answered
    pub read: usize,
    // those selected, and the ends of them, if there are any
    pub count: usize,
    pub ends: Option<Ends>,
    // pages refused or not read
    pub lost: usize,
}

impl Passed {
    pub fn new() -> Passed
        ensures { result ≡ fresh }
    {
        Passed::default()
    }

    pub fn loses(mut self) -> Passed
        ensures { result ≡ losing self }
    {
        self.lost = self.lost.saturating_add(1);
        self
    }

    fn reads(mut self) -> Passed
        ensures { result ≡ reading self }
    {
        self.read = self.read.saturating_add(1);
        self
    }

    fn selects(self, second: usize) -> Passed
        ensures { result ≡ selecting second self }
    {
        let first = match self.ends {
            Some(ends) => ends.first,
            None => second,
        };
        Passed {
            count: self.count.saturating_add(1),
            ends: Some(Ends {
                first,
                last: second,
            }),
            ..self
        }
    }
}

// One second more in its cell; past the last day there are no cells.
fn counted(cells: &mut [u32; CELLS], second: usize)
    ensures { cells.new ≡ in_cell second cells.old }
{
    let c = second / CELL;
    if c < CELLS && cells[c] < CELL as u32 {
        cells[c] += 1;
    }
}

fn second_passed(
    before: Passed,
    second: usize,
    is_selected: bool,
    selected: &mut [u32; CELLS],
    answered: &mut [u32; CELLS],
) -> Passed
    ensures value { result ≡ passing is_selected second before }
    ensures selected_after { selected.new ≡ counting is_selected second selected.old }
    ensures answered_after { answered.new ≡ in_cell second answered.old }
{
    counted(answered, second);
    let passed = before.reads();
    if is_selected {
        counted(selected, second);
        passed.selects(second)
    } else {
        passed
    }
}

// The seconds of an answered page, from `start` to before `end`; bit 0 of its bitmap is the first.
pub fn page_passed(
    before: Passed,
    start: usize,
    end: usize,
    bitmap: &[u8],
    selected: &mut [u32; CELLS],
    answered: &mut [u32; CELLS],
) -> Passed
    ensures value { result ≡ passed (chosen_by bitmap.now start) start (end - start) before }
    ensures selected_after { selected.new
        ≡ counts (chosen_by bitmap.now start) start (end - start) selected.old }
    ensures answered_after { answered.new
        ≡ counts (λ _. true) start (end - start) answered.old }
{
    let mut passed = before;
    for second in start..end {
        let is_selected = is_set(bitmap, second - start);
        passed = second_passed(passed, second, is_selected, selected, answered);
    }
    passed
}
