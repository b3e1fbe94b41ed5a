// The values of a dictionary: 4-byte signed numbers, low byte first.
ghost use Rattle.std.specs.Prelude.{◌≡◌, ◌+◌, ◌*◌, ◌%◌, ◌≤◌, length};
ghost use Rattle.rules.specs.Dictionary.{value};

use signed::wrapping::signed32;
use words::loads::load4;

// Value k.
pub fn value_at(dict: &[u8], k: usize) -> i32
    requires { 4 * k + 4 ≤ length dict.now }
    ensures { result ≡ value dict.now k }
{
    signed32(load4(dict, 4 * k))
}

// Value k, wherever k lies; past the end, where no judged index is, it is 0.
pub fn value_any(dict: &[u8], k: u32) -> i32
    requires { length dict.now % 4 ≡ 0 }
    ensures { result ≡ value dict.now k }
{
    let i = k as usize;
    if i < dict.len() / 4 {
        value_at(dict, i)
    } else {
        0
    }
}
