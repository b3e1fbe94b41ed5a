// How many places to lend, for callers that cannot use the header's macros.
ghost use Rattle.std.specs.Prelude.{◌≡◌};
ghost use Rattle.rules.specs.Answer.{count_fault};
ghost use Rattle.cahermisk.specs.Rooms.{bitmap_bytes, delta_bytes, horizontal_bytes, runs_bytes};
ghost use Rattle.cahermisk.specs.Rooms.{spans_places, unless, vertical_words};

use limits::{judge_signed, judge_unsigned};

// The entries of a column, 0 where they are more than any may have; signed columns have no other limit.
fn entries_kept(n: usize) -> usize
    ensures { result ≡ unless (count_fault n) n }
{
    match judge_signed(n) {
        Ok(()) => n,
        Err(_) => 0,
    }
}

pub fn cahermisk_bitmap_bytes(n: usize) -> usize
    ensures { result ≡ bitmap_bytes n }
{
    (entries_kept(n) + 7) / 8
}

pub fn cahermisk_horizontal_bytes(width: u32, n: usize) -> usize
    ensures { result ≡ horizontal_bytes width n }
{
    match judge_unsigned(width, n) {
        Ok(()) => (n * width as usize + 7) / 8,
        Err(_) => 0,
    }
}

pub fn cahermisk_vertical_words(width: u32, n: usize) -> usize
    ensures { result ≡ vertical_words width n }
{
    match judge_unsigned(width, n) {
        Ok(()) => (n + 63) / 64 * width as usize,
        Err(_) => 0,
    }
}

pub fn cahermisk_runs_bytes(width: u32, n: usize) -> usize
    ensures { result ≡ runs_bytes width n }
{
    match judge_unsigned(width, n) {
        Ok(()) => (n + 7) / 8 * (width as usize + 1),
        Err(_) => 0,
    }
}

pub fn cahermisk_delta_bytes(n: usize) -> usize
    ensures { result ≡ delta_bytes n }
{
    match judge_signed(n) {
        Ok(()) => 11 + (n + 126) / 128 * 521,
        Err(_) => 0,
    }
}

pub fn cahermisk_spans_places(n: usize) -> usize
    ensures { result ≡ spans_places n }
{
    2 * ((entries_kept(n) + 1) / 2)
}
