// Where entries begin, and how the next one is reached: all sums are of 32 bits and wrap.
ghost use Rattle.std.specs.Prelude.{◌≡◌, ◌+◌, ◌*◌, ◌/◌, ◌%◌, ◌^◌, ◌≤◌, length};
ghost use Rattle.rules.specs.Bits.{field};
ghost use Rattle.rules.specs.Bits.Order.{low_first};
ghost use Rattle.rules.specs.Signed.{zigzag, modulo};
ghost use Rattle.signed.specs.Raised.{raised};

use signed::wrapping::{kept32, raised32};
use signed::zigzag::unzig;
use std::num::wrapping_add_u32;
use words::entries::{entry_any, entry_in};

// A first value or a smallest delta, from its zigzag number.
pub fn kept_number(h: u64) -> u32
    ensures { result ≡ modulo 32 (zigzag h) }
{
    kept32(unzig(h))
}

// The same, raised.
pub fn raised_number(h: u64) -> u32
    ensures { result ≡ raised 32 (zigzag h) }
{
    raised32(unzig(h))
}

// The entry after x: smallest delta plus packed number, which lies from bit o of the body on.
pub fn stepped(body: &[u8], o: usize, w: u32, least: u32, x: u32) -> u32
    requires { w ≤ 32 }
    ensures { result ≡ (x + (least + field low_first body.now o w)) % 2 ^ 32 }
{
    wrapping_add_u32(x, wrapping_add_u32(least, entry_any(body, o, w)))
}

// The same by the bit b after byte `at`, where eight bytes from there on are in the body.
pub fn stepped_in(body: &[u8], at: usize, b: usize, w: usize, least: u32, x: u32) -> u32
    requires { (w ≤ 32) × (at + b / 8 + 8 ≤ length body.now) }
    ensures { result ≡ (x + (least + field low_first body.now (8 * at + b) w)) % 2 ^ 32 }
{
    wrapping_add_u32(x, wrapping_add_u32(least, entry_in(body, at, b, w)))
}
