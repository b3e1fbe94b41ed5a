// The four miniblocks of a block, 32 numbers each: their widths, and their bodies.
ghost use Rattle.std.specs.Prelude.{◌≡◌, ◌+◌, ◌*◌, ◌<◌, ◌≤◌, length};
ghost use Rattle.rules.specs.Bits.{put};
ghost use Rattle.rules.specs.DeltaWriter.{width_for, widths, bodies};
ghost use Rattle.delta_write.specs.Miniblocks.{mini};

use packed_entries::judging::bits_together;
use packed_entries::packing::pack_part;

// The least width that holds all of some numbers.
pub fn width_of(numbers: &[u32]) -> u32
    ensures { result ≡ width_for 32 numbers.now }
{
    32 - u32::leading_zeros(bits_together(numbers))
}

// The width of miniblock j.
pub fn width_at(numbers: &[u32], j: usize) -> u32
    requires { (j < 4) × (length numbers.now ≡ 128) }
    ensures { result ≡ width_for 32 (mini j numbers.now) }
{
    let from = 32 * j;
    let to = from + 32;
    width_of(&numbers[from..to])
}

// How many bytes the bodies take.
pub fn bodies_size(numbers: &[u32]) -> usize
    requires { length numbers.now ≡ 128 }
    ensures { result ≡ length (bodies 4 32 numbers.now) }
{
    let mut size: usize = 0;
    for j in 0..4 {
        size += 4 * width_at(numbers, j) as usize;
    }
    size
}

// The width bytes, from place `at` on.
pub fn put_widths(numbers: &[u32], page: &mut [u8], at: usize)
    requires { (length numbers.now ≡ 128) × (at + 4 ≤ length page.old) }
    ensures { page.new ≡ put page.old at (widths 4 32 numbers.now) }
{
    for j in 0..4 {
        page[at + j] = width_at(numbers, j) as u8;
    }
}

// The bodies, one after another from place `at` on; the next place is given.
pub fn put_bodies(numbers: &[u32], page: &mut [u8], at: usize) -> usize
    requires { (length numbers.now ≡ 128)
        × (at + length (bodies 4 32 numbers.now) ≤ length page.old) }
    ensures stored { page.new
        ≡ put page.old at (bodies 4 32 numbers.now) }
    ensures next { result ≡ at + length (bodies 4 32 numbers.now) }
{
    let mut next = at;
    for j in 0..4 {
        let w = width_at(numbers, j);
        pack_part(numbers, 32 * j, 32, w, page, next);
        next += 4 * w as usize;
    }
    next
}
