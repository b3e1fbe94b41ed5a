// A time of day as it is typed: HH:MM:SS.
ghost use Rattle.std.specs.Prelude.{◌≡◌};
ghost use Rattle.scan_words.specs.Times.{clock_second, time_of};

use crate::numbers::magnitude;

// The second of the day.
pub fn read_time(word: &[u8]) -> Option<u32>
    ensures { result ≡ time_of word.now }
{
    if word.len() != 8 || word[2] != b':' || word[5] != b':' {
        return None;
    }
    let hours = magnitude(&word[0..2])?;
    let minutes = magnitude(&word[3..5])?;
    second(hours, minutes, magnitude(&word[6..8])?)
}

fn second(hours: u64, minutes: u64, seconds: u64) -> Option<u32>
    ensures { result ≡ clock_second hours minutes seconds }
{
    if 23 < hours || 59 < minutes || 59 < seconds {
        return None;
    }
    Some((hours * 3600 + minutes * 60 + seconds) as u32)
}
