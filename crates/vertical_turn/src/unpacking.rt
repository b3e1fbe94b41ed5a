// A group's planes into places: eight planes at a time give each entry a byte more.
ghost use Rattle.std.specs.Prelude.{◌≡◌, ◌+◌, ◌≤◌, ◌<◌, length, get_or};
ghost use Rattle.rules.specs.Bits.{put, tabulate};
ghost use Rattle.rules.specs.Vertical.{lane};
ghost use Rattle.vertical_turn.specs.Rows.{behind, grown, grown_row};

use crate::turning::turn;
use words::filling::fill;

// The n places from `from` on: place i takes a byte of word i behind what it holds.
fn row(words: &[u64], from: usize, n: usize, entries: &mut [u32])
    requires { (n ≤ 8) × (n ≤ length words.now) × (from + n ≤ 64)
        × (from + n ≤ length entries.old) }
    ensures { entries.new
        ≡ put entries.old from
        (tabulate n (grown_row words.now entries.old from)) }
{
    for i in 0..n {
        let byte = (words[i] >> from) % 256;
        entries[from + i] = entries[from + i] % 16777216 * 256 + byte as u32;
    }
}

// The first m places, row by row.
fn rows(words: &[u64], m: usize, entries: &mut [u32])
    requires { (8 ≤ length words.now) × (m ≤ 64) × (m ≤ length entries.old) }
    ensures { entries.new
        ≡ put entries.old 0
        (tabulate m (grown words.now entries.old)) }
{
    for q in 0..m / 8 {
        row(words, 8 * q, 8, entries);
    }
    row(words, m / 8 * 8, m % 8, entries);
}

// What the n planes from plane `at` on add to each entry. Eight planes have a copy of their own.
#[inline(always)]
fn add_planes(planes: &[u64], at: usize, n: usize, m: usize, entries: &mut [u32])
    requires { (at + n ≤ length planes.now) × (n ≤ 8) × (m ≤ 64) × (m ≤ length entries.old) }
    ensures { entries.new
        ≡ put entries.old 0
        (tabulate m
        (λ j. behind (get_or entries.old j 0) (lane planes.now at n j))) }
{
    let mut words = [0u64; 8];
    turn(planes, at, n, &mut words);
    rows(&words, m, entries);
}

// The first m places, 0.
fn clear(m: usize, entries: &mut [u32])
    requires { m ≤ length entries.old }
    ensures { entries.new ≡ put entries.old 0 (tabulate m (λ j. 0)) }
{
    fill(&mut entries[..m], 0);
}

// The first m entries of a group's planes, into the first m places. First come the planes that are left over
// of eights.
pub fn unpack_group(planes: &[u64], m: usize, entries: &mut [u32])
    requires { (length planes.now ≤ 32) × (m ≤ 64) × (m ≤ length entries.old) }
    ensures { entries.new
        ≡ put entries.old 0
        (tabulate m (lane planes.now 0 (length planes.now))) }
{
    clear(m, entries);
    let rest = planes.len() % 8;
    if rest > 0 {
        add_planes(planes, 0, rest, m, entries);
    }
    for q in 0..planes.len() / 8 {
        add_planes(planes, rest + 8 * q, 8, m, entries);
    }
}
