// The entries of a column that a band selects, written as a bitmap, group after group.
ghost use Rattle.std.specs.Prelude.{◌≡◌, ◌+◌, ◌*◌, ◌≤◌, length};
ghost use Rattle.rules.specs.Bits.{ceil, put};
ghost use Rattle.rules.specs.Vertical as Vertical;
ghost use Rattle.vertical_planes.specs.Chosen.{chosen, lanes64};

use crate::ends::{Ends, LaidEnds};
use crate::four::{Four, compare_four};
use crate::groups::compare;
use compare::bands::Band;
use rules::Compared;
use words::stores::{store_low, store8};

// The lanes of group g that the band selects, a bit for each.
fn group_bits(words: &[u64], g: usize, ends: &Ends<'_>) -> u64
    requires { g * ends.now.w + ends.now.w ≤ length words.now }
    ensures { result ≡ lanes64 words.now (g * ends.now.w) ends.now.w ends.now.band }
{
    let at = g * ends.w;
    let end = at + ends.w;
    compare(&words[at..end], ends).bits
}

// The same of four groups, the first of them group g.
fn four_groups(words: &[u64], g: usize, ends: &Ends<'_>) -> Four<Compared>
    requires { g * ends.now.w + 4 * ends.now.w ≤ length words.now }
    ensures { (result.first.bits
        ≡ lanes64 words.now (g * ends.now.w) ends.now.w ends.now.band)
        × (result.second.bits
        ≡ lanes64 words.now (g * ends.now.w + ends.now.w) ends.now.w ends.now.band)
        × (result.third.bits
        ≡ lanes64 words.now (g * ends.now.w + ends.now.w + ends.now.w) ends.now.w ends.now.band)
        × (result.fourth.bits
        ≡ lanes64 words.now (g * ends.now.w + ends.now.w + ends.now.w + ends.now.w) ends.now.w ends.now.band) }
{
    let first = g * ends.w;
    let second = first + ends.w;
    let third = second + ends.w;
    let fourth = third + ends.w;
    let end = fourth + ends.w;
    let groups = Four {
        first: &words[first..second],
        second: &words[second..third],
        third: &words[third..fourth],
        fourth: &words[fourth..end],
    };
    compare_four(groups, ends)
}

// The first 4 × m groups, eight bytes each.
fn select_fours(words: &[u64], m: usize, ends: &Ends<'_>, bitmap: &mut [u8])
    requires { (m ≤ 64) × (4 * m * ends.now.w ≤ length words.now) × (32 * m ≤ length bitmap.old) }
    ensures { bitmap.new
        ≡ put bitmap.old 0 (chosen words.now (64 * (4 * m)) ends.now.w ends.now.band) }
{
    for k in 0..m {
        let g = 4 * k;
        let four = four_groups(words, g, ends);
        store8(bitmap, 8 * g, four.first.bits);
        store8(bitmap, 8 * (g + 1), four.second.bits);
        store8(bitmap, 8 * (g + 2), four.third.bits);
        store8(bitmap, 8 * (g + 3), four.fourth.bits);
    }
}

// The q groups that n fills: four at a time, then one at a time.
fn select_full(words: &[u64], q: usize, ends: &Ends<'_>, bitmap: &mut [u8])
    requires { (q ≤ 256) × (q * ends.now.w ≤ length words.now) × (8 * q ≤ length bitmap.old) }
    ensures { bitmap.new
        ≡ put bitmap.old 0 (chosen words.now (64 * q) ends.now.w ends.now.band) }
{
    select_fours(words, q / 4, ends, bitmap);
    for g in 4 * (q / 4)..q {
        store8(bitmap, 8 * g, group_bits(words, g, ends));
    }
}

// All n entries: of the group that n ends in only the bytes that it reaches.
fn select_by(words: &[u64], n: usize, ends: &Ends<'_>, bitmap: &mut [u8])
    requires { (n ≤ 16384) × (length words.now ≡ Vertical.page_words ends.now.w n)
        × (ceil n 8 ≤ length bitmap.old) }
    ensures { bitmap.new
        ≡ put bitmap.old 0 (chosen words.now n ends.now.w ends.now.band) }
{
    let q = n / 64;
    select_full(words, q, ends, bitmap);
    let rest = n % 64;
    if rest == 0 {
        return;
    }
    let bits = group_bits(words, q, ends) % (1 << rest);
    store_low(bitmap, 8 * q, bits, (rest + 7) / 8);
}

// The same, with the ends' bits laid out once for all groups.
pub fn select(words: &[u64], w: usize, n: usize, band: Band, bitmap: &mut [u8])
    requires { (w ≤ 32) × (n ≤ 16384) × (length words.now ≡ Vertical.page_words w n)
        × (ceil n 8 ≤ length bitmap.old) }
    ensures { bitmap.new
        ≡ put bitmap.old 0 (chosen words.now n w band) }
{
    select_by(words, n, &LaidEnds::new(band, w).ends(), bitmap);
}
