// Runs into a page.
ghost use Rattle.std.specs.Prelude.{◌≡◌, false, ◌+◌, ◌*◌, ◌≤◌, ◌<◌, length, drop};
ghost use Rattle.rules.specs.Bits.{put};
ghost use Rattle.rules.specs.Bits.Order.{low_first};
ghost use Rattle.rules.specs.Answer.{any_large};
ghost use Rattle.rules.specs.Horizontal.{packed};
ghost use Rattle.rules.specs.RunWriter.{filled, run_bytes, stream};
ghost use Rattle.rules.specs.RunWriter as RunWriter;
ghost use Rattle.rules.specs.declared.Next.TheVariants.{Repeats, Packs};
ghost use Rattle.runs_write.specs.Sizes.{run_size};

use crate::stretches::{next_run, taken};
use packed_entries::packing::pack_part;
use rules::Next;
use varints::writing::put_number;
use words::stores::store_low;

// Equal entries from place p on: an even header, and their value behind it, low byte first.
fn put_repeated(
    entries: &[u32],
    p: usize,
    count: usize,
    w: u32,
    page: &mut [u8],
    at: usize,
) -> usize
    requires { (w ≤ 32) × (count ≤ 16391) × (p < length entries.now)
        × (at + run_size w (Repeats count) ≤ length page.old) }
    ensures stored { page.new
        ≡ put page.old at (run_bytes w (drop p entries.now) (Repeats count)) }
    ensures next { result ≡ at + run_size w (Repeats count) }
{
    let from = put_number(page, at, (2 * count) as u32);
    let size = (w as usize + 7) / 8;
    store_low(page, from, entries[p] as u64, size);
    from + size
}

// Groups of 8, w bytes each, from byte `from` on: past the end of the entries they are filled with 0.
fn put_groups(entries: &[u32], p: usize, groups: usize, w: u32, page: &mut [u8], from: usize)
    requires { (w ≤ 32) × (8 * groups ≤ 16391) × (p ≤ length entries.now)
        × (any_large w entries.now ≡ false) × (from + w * groups ≤ length page.old) }
    ensures { page.new
        ≡ put page.old from
        (packed low_first w (filled groups (drop p entries.now))) }
{
    let m = (8 * groups).min(entries.len() - p);
    let laid = (m * w as usize + 7) / 8;
    pack_part(entries, p, m, w, page, from);
    store_low(page, from + laid, 0, w as usize * groups - laid);
}

// Groups of entries from place p on: an odd header, and the groups behind it.
fn put_packed(entries: &[u32], p: usize, groups: usize, w: u32, page: &mut [u8], at: usize) -> usize
    requires { (w ≤ 32) × (8 * groups ≤ 16391) × (p ≤ length entries.now)
        × (any_large w entries.now ≡ false) × (at + run_size w (Packs groups) ≤ length page.old) }
    ensures stored { page.new
        ≡ put page.old at (run_bytes w (drop p entries.now) (Packs groups)) }
    ensures next { result ≡ at + run_size w (Packs groups) }
{
    let from = put_number(page, at, (2 * groups + 1) as u32);
    put_groups(entries, p, groups, w, page, from);
    from + w as usize * groups
}

// The run of entries from place p on, from place `at` of the page on; the next place is given.
fn put_run(entries: &[u32], p: usize, w: u32, next: Next, page: &mut [u8], at: usize) -> usize
    requires { (w ≤ 32) × (p < length entries.now) × (any_large w entries.now ≡ false)
        × (RunWriter.taken next ≤ 16391)
        × (at + length (run_bytes w (drop p entries.now) next) ≤ length page.old) }
    ensures stored { page.new
        ≡ put page.old at (run_bytes w (drop p entries.now) next) }
    ensures next { result ≡ at + length (run_bytes w (drop p entries.now) next) }
{
    match next {
        Next::Repeats(count) => put_repeated(entries, p, count, w, page, at),
        Next::Packs(groups) => put_packed(entries, p, groups, w, page, at),
    }
}

// The stream of the entries, run by run.
pub fn put_stream(entries: &[u32], w: u32, page: &mut [u8])
    requires { (w ≤ 32) × (length entries.now ≤ 16384) × (any_large w entries.now ≡ false)
        × (length (stream w entries.now) ≤ length page.old) }
    ensures { page.new ≡ put page.old 0 (stream w entries.now) }
{
    let mut at: usize = 0;
    let mut p: usize = 0;
    while p < entries.len() {
        let next = next_run(entries, p);
        at = put_run(entries, p, w, next, page, at);
        p += taken(next);
    }
}
