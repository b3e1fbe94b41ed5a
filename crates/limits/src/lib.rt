// The column kinds: the limit numbers belong to them, and every argument check asks them here.
#![tactic(auto)]

ghost use Rattle.std.specs.Prelude.{◌≡◌};
ghost use Rattle.rules.specs.Answer.{count_fault, limit_fault};
ghost use Rattle.rules.specs.Refusals.{fault};

use rules::Refusal;

// Columns of unsigned entries, whose width is an argument: horizontal and vertical pages, run streams.
#[derive(Clone, Copy)]
pub struct Unsigned {
    pub width: u32,
    pub entries: usize,
}

impl Unsigned {
    pub const MAX_WIDTH: u32 = 32;

    pub const MAX_ENTRIES: usize = 16384;

    pub fn new(width: u32, entries: usize) -> Self
        ensures { (result.width ≡ width) × (result.entries ≡ entries) }
    {
        Self { width, entries }
    }

    // Does the column keep to the limits.
    pub fn judge(self) -> Result<(), Refusal>
        ensures { fault result ≡ limit_fault self.width self.entries }
    {
        if Self::MAX_WIDTH < self.width {
            return Err(Refusal::WidthAboveLimit);
        }
        if Self::MAX_ENTRIES < self.entries {
            return Err(Refusal::TooManyEntries);
        }
        Ok(())
    }
}

// The same of a width and a count that a caller gave.
pub fn judge_unsigned(width: u32, n: usize) -> Result<(), Refusal>
    ensures { fault result ≡ limit_fault width n }
{
    Unsigned::new(width, n).judge()
}

// Columns of signed entries, whose widths are in the page: delta pages, dictionary columns.
#[derive(Clone, Copy)]
pub struct Signed {
    pub entries: usize,
}

impl Signed {
    pub const MAX_WIDTH: u32 = 32;

    pub const MAX_ENTRIES: usize = 16384;

    pub fn new(entries: usize) -> Self
        ensures { result.entries ≡ entries }
    {
        Self { entries }
    }

    // Does the column keep to the limit.
    pub fn judge(self) -> Result<(), Refusal>
        ensures { fault result ≡ count_fault self.entries }
    {
        if Self::MAX_ENTRIES < self.entries {
            return Err(Refusal::TooManyEntries);
        }
        Ok(())
    }
}

// The same of a count that a caller gave.
pub fn judge_signed(n: usize) -> Result<(), Refusal>
    ensures { fault result ≡ count_fault n }
{
    Signed::new(n).judge()
}
