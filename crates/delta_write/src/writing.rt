// Entries into a page.
ghost use Rattle.std.specs.Prelude.{◌≡◌, ◌+◌, ◌<◌, ◌≤◌, length, take, drop};
ghost use Rattle.rules.specs.Bits.{put};
ghost use Rattle.rules.specs.DeltaWriter.{deltas, block};
ghost use Rattle.rules.specs.DeltaWriter as DeltaWriter;
ghost use Rattle.delta_write.specs.Blocks.{header};

use crate::deltas::put_numbers;
use crate::miniblocks::{put_bodies, put_widths};
use crate::sizes::first_of;
use varints::writing::put_number;

// The header; the next place is given.
fn put_header(entries: &[i32], page: &mut [u8]) -> usize
    requires { (length entries.now ≤ 16384) × (length (header entries.now) ≤ length page.old) }
    ensures stored { page.new ≡ put page.old 0 (header entries.now) }
    ensures next { result ≡ length (header entries.now) }
{
    let minis = put_number(page, 0, 128);
    let count = put_number(page, minis, 4);
    let first = put_number(page, count, entries.len() as u32);
    put_number(page, first, first_of(entries))
}

// The block of the k deltas from delta `from` on, from place `at` of the page on; the next place is given.
fn put_block(entries: &[i32], from: usize, k: usize, page: &mut [u8], at: usize) -> usize
    requires { (0 < k) × (k ≤ 128) × (from + k < length entries.now) × (length entries.now ≤ 16384)
        × (at + length (block 32 (take k (drop from (deltas 32 entries.now)))) ≤ length page.old) }
    ensures stored { page.new
        ≡ put page.old at
        (block 32 (take k (drop from (deltas 32 entries.now)))) }
    ensures next { result
        ≡ at + length (block 32 (take k (drop from (deltas 32 entries.now)))) }
{
    let mut numbers = [0u32; 128];
    let smallest = put_numbers(entries, from, k, &mut numbers);
    let widths = put_number(page, at, smallest);
    put_widths(&numbers, page, widths);
    put_bodies(&numbers, page, widths + 4)
}

// The page of the entries, block by block.
pub fn put_page(entries: &[i32], page: &mut [u8])
    requires { (length entries.now ≤ 16384)
        × (length (DeltaWriter.page 32 entries.now) ≤ length page.old) }
    ensures { page.new
        ≡ put page.old 0 (DeltaWriter.page 32 entries.now) }
{
    let mut at = put_header(entries, page);
    let deltas = entries.len().saturating_sub(1);
    for from in (0..deltas).step_by(128) {
        at = put_block(entries, from, (deltas - from).min(128), page, at);
    }
}
