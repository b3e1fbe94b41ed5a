// Numbers as they are typed: decimal digits, a sign before them.
ghost use Rattle.std.specs.Prelude.{◌≡◌};
ghost use Rattle.scan_words.specs.Numbers.{further, kept, at_most, below, count_of};
ghost use Rattle.scan_words.specs.Numbers.{constant_of};

// The most that ten times and a digit more keep within 64 bits.
const ROOM: u64 = 922337203685477580;

// One digit more, where there is room.
fn longer(m: u64, digit: u8) -> Option<u64>
    ensures { result ≡ further m digit }
{
    if ROOM < m || !digit.is_ascii_digit() {
        return None;
    }
    Some(m * 10 + (digit - b'0') as u64)
}

// What a word of digits spells, at most 2^63 + 1.
pub fn magnitude(word: &[u8]) -> Option<u64>
    ensures { result ≡ kept word.now }
{
    if word.is_empty() {
        return None;
    }
    let mut m: u64 = 0;
    for digit in word {
        m = longer(m, *digit)?;
    }
    Some(m)
}

fn positive(m: u64) -> Option<i64>
    ensures { result ≡ at_most m }
{
    i64::try_from(m).ok()
}

fn negative(m: u64) -> Option<i64>
    ensures { result ≡ below m }
{
    0i64.checked_sub_unsigned(m)
}

// A comparison's constant: a signed number of 64 bits.
pub fn read_constant(word: &[u8]) -> Option<i64>
    ensures { result ≡ constant_of word.now }
{
    match word {
        [b'-', digits @ ..] => negative(magnitude(digits)?),
        [b'+', digits @ ..] => positive(magnitude(digits)?),
        _ => positive(magnitude(word)?),
    }
}

// An option's number: a count of at most 32 bits.
pub fn read_count(word: &[u8]) -> Option<u32>
    ensures { result ≡ count_of word.now }
{
    u32::try_from(magnitude(word)?).ok()
}
