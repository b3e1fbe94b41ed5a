// The kernel for each width. A literal width in each arm has the compiler copy the kernel and fold what
// depends on the width alone: only below a certain cost, which `tools/inlined` watches, since no proof and
// no test shows it.
#![tactic(auto)]

ghost use Rattle.std.specs.Prelude.{◌≡◌, ◌+◌, ◌*◌, ◌≤◌, length};
ghost use Rattle.rules.specs.Bits.{put};
ghost use Rattle.compare.specs.Range.{Usable};
ghost use Rattle.packed_kernels.specs.Selected.{selected, ranging};

use packed_kernels::eights::Eights;
use packed_kernels::fours::Fours;
use packed_kernels::kernels::select;
use packed_kernels::singly::{Singly, Whole, Window};
use packed_kernels::twos::Twos;

// m groups of eight entries to m bytes of the bitmap. `flip` is 255 where the entries outside are wanted.
pub fn select_groups(
    page: &[u8],
    bitmap: &mut [u8],
    m: usize,
    w: usize,
    low: u32,
    span: u32,
    flip: u8,
)
    requires { (w ≤ 32) × (m * w + 8 ≤ length page.now) × (m ≤ length bitmap.old)
        × Usable low span flip }
    ensures { bitmap.new
        ≡ put bitmap.old 0 (selected page.now (8 * m) w (ranging low span flip)) }
{
    match w {
        0 => select::<Singly<Window>>(page, bitmap, m, 0, low, span, flip),
        1 => select::<Eights>(page, bitmap, m, 1, low, span, flip),
        2 => select::<Eights>(page, bitmap, m, 2, low, span, flip),
        3 => select::<Eights>(page, bitmap, m, 3, low, span, flip),
        4 => select::<Eights>(page, bitmap, m, 4, low, span, flip),
        5 => select::<Eights>(page, bitmap, m, 5, low, span, flip),
        6 => select::<Eights>(page, bitmap, m, 6, low, span, flip),
        7 => select::<Eights>(page, bitmap, m, 7, low, span, flip),
        8 => select::<Eights>(page, bitmap, m, 8, low, span, flip),
        9 => select::<Fours>(page, bitmap, m, 9, low, span, flip),
        10 => select::<Fours>(page, bitmap, m, 10, low, span, flip),
        11 => select::<Fours>(page, bitmap, m, 11, low, span, flip),
        12 => select::<Fours>(page, bitmap, m, 12, low, span, flip),
        13 => select::<Fours>(page, bitmap, m, 13, low, span, flip),
        14 => select::<Fours>(page, bitmap, m, 14, low, span, flip),
        15 => select::<Fours>(page, bitmap, m, 15, low, span, flip),
        16 => select::<Fours>(page, bitmap, m, 16, low, span, flip),
        17 => select::<Twos>(page, bitmap, m, 17, low, span, flip),
        18 => select::<Twos>(page, bitmap, m, 18, low, span, flip),
        19 => select::<Twos>(page, bitmap, m, 19, low, span, flip),
        20 => select::<Twos>(page, bitmap, m, 20, low, span, flip),
        21 => select::<Twos>(page, bitmap, m, 21, low, span, flip),
        22 => select::<Twos>(page, bitmap, m, 22, low, span, flip),
        23 => select::<Twos>(page, bitmap, m, 23, low, span, flip),
        24 => select::<Twos>(page, bitmap, m, 24, low, span, flip),
        25 => select::<Twos>(page, bitmap, m, 25, low, span, flip),
        26 => select::<Twos>(page, bitmap, m, 26, low, span, flip),
        27 => select::<Twos>(page, bitmap, m, 27, low, span, flip),
        28 => select::<Twos>(page, bitmap, m, 28, low, span, flip),
        29 => select::<Twos>(page, bitmap, m, 29, low, span, flip),
        30 => select::<Twos>(page, bitmap, m, 30, low, span, flip),
        31 => select::<Singly<Window>>(page, bitmap, m, 31, low, span, flip),
        32 => select::<Singly<Whole>>(page, bitmap, m, 32, low, span, flip),
        _ => select::<Singly<Window>>(page, bitmap, m, w, low, span, flip),
    }
}
