// The entries of one block, written in either way.
ghost use Rattle.std.specs.Prelude.{◌≡◌, ◌+◌, ◌*◌, ◌≤◌, ◌<◌, min};
ghost use Rattle.signed.specs.Reached.{reached};
ghost use Rattle.signed.specs.Entries.{step};
ghost use Rattle.delta_octets.specs.Steps.{packed_step};
ghost use Rattle.delta_decode.specs.MiniblockDeltas.{deltas_in, Judged};

use crate::miniblocks::Miniblocks;
use delta_octets::steps::kept_number;
use delta_octets::writing::Writing;

// k entries from `from` on, by the body of a miniblock, as the entries from i on; gives the entry after
// them.
pub fn write_mini<T: Writing>(
    writing: T,
    body: &[u8],
    w: u32,
    k: usize,
    least: u32,
    from: u32,
    out: &mut [T::Out],
    i: usize,
) -> u32
    requires { (w ≤ 32) × (i + k ≤ 16384) × T.Room writing i k out.old }
    ensures entry { result ≡ reached 32 from (packed_step least body.now w) k }
    ensures wrote { out.new
        ≡ T.write writing i k (reached 32 from (packed_step least body.now w)) out.old }
{
    let mut x = from;
    for j in (0..k).step_by(8) {
        x = writing.write_octet(body, j, w, (k - j).min(8), least, x, out, i + j);
    }
    x
}

// The entries of a block from `from` on, at most `room`, as the entries from i on; gives the entry after
// them.
pub fn write_block<T: Writing>(
    writing: T,
    page: &[u8],
    block: Miniblocks,
    from: u32,
    room: usize,
    out: &mut [T::Out],
    i: usize,
) -> u32
    requires { Judged 32 page.now block room × (i + room ≤ 16384) × T.Room writing i room out.old }
    ensures entry { result
        ≡ reached 32 from (step 32 (deltas_in block page.now))
        (min (block.need * block.size) room) }
    ensures wrote { out.new
        ≡ T.write writing i (min (block.need * block.size) room)
        (reached 32 from (step 32 (deltas_in block page.now))) out.old }
{
    let least = kept_number(block.least);
    let mut x = from;
    let mut at = block.bodies;
    let mut done: usize = 0;
    for width in &page[block.widths..block.widths + block.need] {
        let w = *width as u32;
        let k = block.size.min(room - done);
        x = write_mini(writing, &page[at..], w, k, least, x, out, i + done);
        at += block.size / 8 * w as usize;
        done += block.size;
    }
    x
}
