// The answers that definitions and code share, and the number of each refusal.
#![tactic(auto)]

ghost use Rattle.std.specs.Prelude.{◌≡◌};
ghost use Rattle.rules.specs.Refusals.{code, answer_of};

// What is wrong with what was lent, in the order of the written list.
#[derive(Clone, Copy, Debug, PartialEq, Eq)]
pub enum Refusal {
    WidthAboveLimit,
    TooManyEntries,
    OperatorAbove7,
    OutputTooShort,
    InputEndsTooEarly,
    InputLeftOver,
    UnusedBitsNot0,
    ValueTooLarge,
    NumberBeyondItsBits,
    RunOfLength0,
    RunPastN,
    DeltaShape,
    DeltaCountNotN,
    MalformedDictionary,
    IndexTooLarge,
    SpansMisplaced,
}

impl Refusal {
    // Its number in the written list; 16 and 17 are not given.
    pub fn code(self) -> u32
        ensures { result ≡ code self }
    {
        match self {
            Refusal::WidthAboveLimit => 1,
            Refusal::TooManyEntries => 2,
            Refusal::OperatorAbove7 => 3,
            Refusal::OutputTooShort => 4,
            Refusal::InputEndsTooEarly => 5,
            Refusal::InputLeftOver => 6,
            Refusal::UnusedBitsNot0 => 7,
            Refusal::ValueTooLarge => 8,
            Refusal::NumberBeyondItsBits => 9,
            Refusal::RunOfLength0 => 10,
            Refusal::RunPastN => 11,
            Refusal::DeltaShape => 12,
            Refusal::DeltaCountNotN => 13,
            Refusal::MalformedDictionary => 14,
            Refusal::IndexTooLarge => 15,
            Refusal::SpansMisplaced => 18,
        }
    }
}

// A code and a number, as C has them.
#[repr(C)]
#[derive(Clone, Copy)]
pub struct Answer {
    pub code: u32,
    pub number: u32,
}

impl From<Result<u32, Refusal>> for Answer {
    ghost from_gives = { λ came answer. answer ≡ answer_of came };

    fn from(came: Result<u32, Refusal>) -> Answer {
        match came {
            Ok(number) => Answer { code: 0, number },
            Err(refusal) => Answer {
                code: refusal.code(),
                number: 0,
            },
        }
    }
}

// One group of 64 entries in bit planes, compared: a bit for each, and how many planes were taken.
#[derive(Clone, Copy)]
pub struct Compared {
    pub bits: u64,
    pub taken: usize,
}

// A variable-length number read at a place: its value with the next place, or why there is none.
#[derive(Clone, Copy)]
pub enum Number {
    Read(u64, usize),
    Ended,
    Beyond,
}

// One run read at a place, with the next place.
#[derive(Clone, Copy)]
pub enum Run {
    Repeated {
        count: usize,
        value: u32,
        next: usize,
    },
    Packed {
        groups: usize,
        start: usize,
        next: usize,
    },
}

// One run asked for by itself, as numbers: the packed bytes by their place on the page and how many they
// are.
#[repr(C)]
#[derive(Clone, Copy)]
pub struct RunAnswer {
    pub code: u32,
    pub kind: u32,
    pub length: usize,
    pub value: u32,
    pub next: usize,
    pub body_at: usize,
    pub body_len: usize,
}

// The next run of the writer: how many equal entries, or how many groups of 8.
#[derive(Clone, Copy)]
pub enum Next {
    Repeats(usize),
    Packs(usize),
}

// The header of a delta page: block size, miniblocks per block, the first value's number, the next place.
#[derive(Clone, Copy)]
pub struct Head {
    pub size: u64,
    pub minis: u64,
    pub first: u64,
    pub next: usize,
}

// A block of a delta page: the smallest delta's number, the place of its width bytes, the next block's place.
#[derive(Clone, Copy)]
pub struct Block {
    pub least: u64,
    pub widths: usize,
    pub next: usize,
}
