// How many bytes the header takes, a block, and a whole page.
ghost use Rattle.std.specs.Prelude.{◌≡◌, ◌+◌, ◌-◌, ◌<◌, ◌≤◌, length, take, drop, pos, slice_index_or};
ghost use Rattle.rules.specs.Signed.{zigzag_of};
ghost use Rattle.rules.specs.DeltaWriter.{deltas, block};
ghost use Rattle.rules.specs.DeltaWriter as DeltaWriter;
ghost use Rattle.delta_write.specs.Blocks.{header};

use crate::deltas::put_numbers;
use crate::miniblocks::bodies_size;
use crate::numbers::zigzag;
use varints::writing::size_of;

// The first value as a zigzag number: 0 for no entries.
pub fn first_of(entries: &[i32]) -> u32
    ensures { result ≡ zigzag_of (slice_index_or entries.now 0 (pos 0)) }
{
    match entries.first() {
        Some(first) => zigzag(*first),
        None => 0,
    }
}

// The four numbers: block size, miniblocks per block, count, first value; at most 5 bytes each.
fn header_size(entries: &[i32]) -> usize
    requires { length entries.now ≤ 16384 }
    ensures sized { result ≡ length (header entries.now) }
    ensures few { result ≤ 20 }
{
    size_of(128) + size_of(4) + size_of(entries.len() as u32) + size_of(first_of(entries))
}

// The smallest delta, the width bytes and the bodies of the k deltas from delta `from` on.
fn block_size(entries: &[i32], from: usize, k: usize) -> usize
    requires { (0 < k) × (k ≤ 128) × (from + k < length entries.now)
        × (length entries.now ≤ 16384) }
    ensures { result ≡ length (block 32 (take k (drop from (deltas 32 entries.now)))) }
{
    let mut numbers = [0u32; 128];
    let smallest = put_numbers(entries, from, k, &mut numbers);
    size_of(smallest) + 4 + bodies_size(&numbers)
}

// The page of the entries, block by block: a number of 32 bits.
pub fn page_size(entries: &[i32]) -> usize
    requires { length entries.now ≤ 16384 }
    ensures sized { result ≡ length (DeltaWriter.page 32 entries.now) }
    ensures few { result < 4294967296 }
{
    let mut size = header_size(entries);
    let deltas = entries.len().saturating_sub(1);
    for from in (0..deltas).step_by(128) {
        size += block_size(entries, from, (deltas - from).min(128));
    }
    size
}
