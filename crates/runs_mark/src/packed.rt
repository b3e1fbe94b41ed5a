// Packed entries, of which a range selects some.
ghost use Rattle.std.specs.Prelude.{◌≡◌, ◌+◌, ◌*◌, ◌%◌, ◌≤◌, ◌<◌, length};
ghost use Rattle.rules.specs.Bits.{word, field, entry};
ghost use Rattle.rules.specs.Bits.Order.{low_first};
ghost use Rattle.rules.specs.Horizontal.{page_bytes};
ghost use Rattle.words.specs.Appended.{appended};
ghost use Rattle.compare.specs.Range.{ranged, UsableRange};

use crate::bits::append_bits;
use compare::ranges::Range;
use packed_select::select;

// The k entries that a part begins with, at most 448. Up to 8 bytes may follow them.
fn mark_part(part: &[u8], w: usize, k: usize, range: Range, bitmap: &mut [u8], p: usize)
    requires { (w ≤ 32) × (0 < k) × (k ≤ 448) × (page_bytes w k ≤ length part.now)
        × (length part.now ≤ page_bytes w k + 8) × (p ≤ 32768) × (p + k ≤ 8 * length bitmap.old)
        × UsableRange range }
    ensures { bitmap.new
        ≡ appended bitmap.old p
        (word k (λ i. ranged range (entry low_first part.now w i))) k }
{
    let mut bits = [0u8; 64];
    select(part, w, k, range, &mut bits);
    append_bits(&bits, k, bitmap, p);
}

// The k entries from byte `from` to byte `to` of the body.
fn mark_between(
    body: &[u8],
    from: usize,
    to: usize,
    w: usize,
    k: usize,
    range: Range,
    bitmap: &mut [u8],
    p: usize,
)
    requires { (w ≤ 32) × (0 < k) × (k ≤ 448) × (from + page_bytes w k ≤ to)
        × (to ≤ from + page_bytes w k + 8) × (to ≤ length body.now) × (p ≤ 32768)
        × (p + k ≤ 8 * length bitmap.old) × UsableRange range }
    ensures { bitmap.new
        ≡ appended bitmap.old p
        (word k (λ i. ranged range (field low_first body.now (8 * from + i * w) w))) k }
{
    mark_part(&body[from..to], w, k, range, bitmap, p);
}

// From inside a byte on: 448 entries, which are 56 × w bytes, at a time.
fn mark_inside(body: &[u8], w: usize, m: usize, range: Range, bitmap: &mut [u8], p: usize)
    requires { (w ≤ 32) × (0 < m) × (m ≤ 16384) × (p ≤ 16384) × (page_bytes w m ≤ length body.now)
        × (length body.now ≤ page_bytes w m + 8) × (p + m ≤ 8 * length bitmap.old)
        × UsableRange range }
    ensures { bitmap.new
        ≡ appended bitmap.old p
        (word m (λ k. ranged range (entry low_first body.now w k))) m }
{
    let parts = (m - 1) / 448;
    for part in 0..parts {
        let at = 56 * w * part;
        mark_between(body, at, at + 56 * w, w, 448, range, bitmap, p + 448 * part);
    }
    let at = 56 * w * parts;
    let done = 448 * parts;
    mark_between(body, at, body.len(), w, m - done, range, bitmap, p + done);
}

// m packed entries, of which the range selects some, from bit p on. Up to 8 bytes may follow them in the
// body.
pub fn mark_packed(body: &[u8], w: usize, m: usize, range: Range, bitmap: &mut [u8], p: usize)
    requires { (w ≤ 32) × (0 < m) × (m ≤ 16384) × (p ≤ 16384) × (page_bytes w m ≤ length body.now)
        × (length body.now ≤ page_bytes w m + 8) × (p + m ≤ 8 * length bitmap.old)
        × UsableRange range }
    ensures { bitmap.new
        ≡ appended bitmap.old p
        (word m (λ k. ranged range (entry low_first body.now w k))) m }
{
    if p % 8 == 0 {
        let from = p / 8;
        select(body, w, m, range, &mut bitmap[from..]);
    } else {
        mark_inside(body, w, m, range, bitmap, p);
    }
}
