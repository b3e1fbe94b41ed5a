// A list of entries, into bit planes.
ghost use Rattle.std.specs.Prelude.{◌≡◌, ◌+◌, ◌*◌, ◌≤◌, ◌<◌, length};
ghost use Rattle.rules.specs.Bits.{put, tabulate};
ghost use Rattle.rules.specs.Answer.Outcome.{outcome};
ghost use Rattle.rules.specs.Refusals.{answer_of};
ghost use Rattle.rules.specs.Vertical as Vertical;

use limits::judge_unsigned;
use packed_entries::judging::judge_entries;
use rules::Refusal;
use vertical_scan::groups::entries_in_group;
use vertical_turn::packing::pack_group;

// Group g, from its own entries into its own planes; a lane past the list's end is 0.
fn pack_one(entries: &[u32], w: usize, g: usize, words: &mut [u64])
    requires { (w ≤ 32) × (length entries.now ≤ 16384) × (64 * g < length entries.now)
        × (g * w + w ≤ length words.old) }
    ensures { words.new
        ≡ put words.old (g * w) (tabulate w (Vertical.plane w entries.now g)) }
{
    let from = 64 * g;
    let to = from + entries_in_group(entries.len(), g);
    let at = g * w;
    pack_group(&entries[from..to], w, &mut words[at..]);
}

fn pack_groups(entries: &[u32], w: usize, words: &mut [u64])
    requires { (w ≤ 32) × (length entries.now ≤ 16384)
        × (Vertical.page_words w (length entries.now) ≤ length words.old) }
    ensures { words.new
        ≡ put words.old 0 (Vertical.packed w entries.now) }
{
    for g in 0..(entries.len() + 63) / 64 {
        pack_one(entries, w, g, words);
    }
}

// How many words the planes have.
pub fn pack(entries: &[u32], width: u32, words: &mut [u64]) -> Result<u32, Refusal>
    ensures { outcome (answer_of result) words.new
        ≡ Vertical.pack entries.now width words.old }
{
    let n = entries.len();
    judge_unsigned(width, n)?;
    let need = (n + 63) / 64 * width as usize;
    judge_entries(entries, width, words.len(), need)?;
    pack_groups(entries, width as usize, words);
    Ok(need as u32)
}
