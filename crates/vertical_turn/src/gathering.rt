// Eight bits of every entry gathered into eight words, of which each has every eighth entry.
ghost use Rattle.std.specs.Prelude.{◌≡◌, ◌≤◌, ◌<◌, length};
ghost use Rattle.rules.specs.Bits.{put, tabulate};
ghost use Rattle.vertical_turn.specs.PlanesFromBytes.{gathered};

// The bytes from bit `low` on of the entries 7 - r, 15 - r, .. 63 - r, and 0 for those past the last.
fn gather_one(entries: &[u32], low: usize, r: usize) -> u64
    requires { (length entries.now ≤ 64) × (low < 32) × (r < 8) }
    ensures { result ≡ gathered entries.now low r }
{
    let mut x: u64 = 0;
    for b in (0..(entries.len() + r) / 8).rev() {
        let byte = (entries[8 * b + (7 - r)] >> low) % 256;
        x = x * 256 + byte as u64;
    }
    x
}

// All eight, so that the last of every eight entries comes first.
pub fn gather(entries: &[u32], low: usize, words: &mut [u64])
    requires { (length entries.now ≤ 64) × (low < 32) × (8 ≤ length words.old) }
    ensures { words.new
        ≡ put words.old 0 (tabulate 8 (gathered entries.now low)) }
{
    for r in 0..8 {
        words[r] = gather_one(entries, low, r);
    }
}
