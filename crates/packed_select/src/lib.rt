// Packed entries of a whole page compared where they lie: its groups, those at its end with zeros behind
// them, and the last byte's unused bits.
#![tactic(auto)]

ghost use Rattle.std.specs.Prelude.{◌≡◌, ◌+◌, ◌*◌, ◌≤◌, ◌<◌, length, drop};
ghost use Rattle.rules.specs.Bits.{ceil, put};
ghost use Rattle.rules.specs.Horizontal.{page_bytes};
ghost use Rattle.compare.specs.Range.{ranged, Usable, UsableRange};
ghost use Rattle.packed_kernels.specs.Selected.{selected, ranging};

use bitmaps::trim;
use compare::ranges::Range;
use packed_widths::select_groups;

// How many groups, of q, have windows that end within `len` bytes. Where all have, nothing is divided.
fn groups_within(len: usize, w: usize, q: usize) -> usize
    requires { (0 < w) × (w ≤ 32) × (q ≤ 2048) × (8 ≤ len) × (len ≤ q * w + 8) }
    ensures { (result * w + 8 ≤ len) × (len ≤ result * w + w + 8) × (result ≤ q) }
{
    if q * w + 8 <= len {
        q
    } else {
        ((len - 8) / w).min(q)
    }
}

// The groups, of q, whose windows end within the page: how many they are.
fn front(page: &[u8], bitmap: &mut [u8], q: usize, w: usize, low: u32, span: u32, flip: u8) -> usize
    requires { (w ≤ 32) × (q ≤ 2048) × (length page.now ≤ q * w + 8) × (q ≤ length bitmap.old)
        × Usable low span flip }
    ensures within { (result * w ≤ length page.now)
        × (length page.now ≤ result * w + w + 8) × (result ≤ q) }
    ensures written { bitmap.new
        ≡ put bitmap.old 0 (selected page.now (8 * result) w (ranging low span flip)) }
{
    if w == 0 || page.len() < 8 {
        return 0;
    }
    let m = groups_within(page.len(), w, q);
    select_groups(page, bitmap, m, w, low, span, flip);
    m
}

// Copies the page from byte a on.
pub fn copy(page: &[u8], a: usize, rest: &mut [u8])
    requires { (a ≤ length page.now) × (length page.now ≤ a + length rest.old) }
    ensures { rest.new ≡ put rest.old 0 (drop a page.now) }
{
    for (i, byte) in page[a..].iter().enumerate() {
        rest[i] = *byte;
    }
}

// The k groups from byte a on, of which the last may reach past the page's end.
fn tail(page: &[u8], a: usize, bitmap: &mut [u8], k: usize, w: usize, low: u32, span: u32, flip: u8)
    requires { (w ≤ 32) × (a ≤ length page.now) × (length page.now ≤ a + 80) × (k * w ≤ 72)
        × (k ≤ length bitmap.old) × Usable low span flip }
    ensures { bitmap.new
        ≡ put bitmap.old 0
        (selected (drop a page.now) (8 * k) w (ranging low span flip)) }
{
    if k == 0 {
        return;
    }
    let mut rest = [0u8; 80];
    copy(page, a, &mut rest);
    select_groups(&rest, bitmap, k, w, low, span, flip);
}

// The bitmap of the n entries of width w that the page begins with, of which the range selects some. Up to
// 8 bytes may follow them: then no group's window reaches past the page's end, and nothing is copied.
pub fn select(page: &[u8], w: usize, n: usize, range: Range, bitmap: &mut [u8])
    requires { (w ≤ 32) × (n ≤ 16384) × (page_bytes w n ≤ length page.now)
        × (length page.now ≤ page_bytes w n + 8) × (ceil n 8 ≤ length bitmap.old)
        × UsableRange range }
    ensures { bitmap.new
        ≡ put bitmap.old 0 (selected page.now n w (ranged range)) }
{
    let q = (n + 7) / 8;
    let m = front(page, bitmap, q, w, range.low, range.span, range.flip);
    tail(
        page,
        m * w,
        &mut bitmap[m..],
        q - m,
        w,
        range.low,
        range.span,
        range.flip,
    );
    trim(bitmap, n);
}
