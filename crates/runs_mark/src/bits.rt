// Bits that lie in bytes of their own, put from any bit of the bitmap on.
ghost use Rattle.std.specs.Prelude.{◌≡◌, ◌+◌, ◌*◌, ◌/◌, ◌%◌, ◌^◌, ◌≤◌, ◌<◌, length};
ghost use Rattle.rules.specs.Bits.{number};
ghost use Rattle.words.specs.Appended.{appended};

use words::bits::append_at;
use words::loads::load8;

// The 56 bits from byte i on.
fn bits_at(bits: &[u8], i: usize) -> u64
    requires { i + 8 ≤ length bits.now }
    ensures { result ≡ number bits.now / 2 ^ (8 * i) % 2 ^ 56 }
{
    load8(bits, i) % 72057594037927936
}

// The k bits in front of `bits`, all behind them being 0, put from bit p on: 56 at a time.
pub fn append_bits(bits: &[u8], k: usize, bitmap: &mut [u8], p: usize)
    requires { (length bits.now ≡ 64) × (0 < k) × (k ≤ 448) × (number bits.now < 2 ^ k)
        × (p ≤ 32768) × (p + k ≤ 8 * length bitmap.old) }
    ensures { bitmap.new
        ≡ appended bitmap.old p (number bits.now) k }
{
    let pieces = (k - 1) / 56;
    for piece in 0..pieces {
        append_at(bitmap, p + 56 * piece, bits_at(bits, 7 * piece), 56);
    }
    let last = bits_at(bits, 7 * pieces);
    append_at(bitmap, p + 56 * pieces, last, (k - 56 * pieces) as u32);
}
