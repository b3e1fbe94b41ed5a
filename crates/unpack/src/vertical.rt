// The entries of a column of bit planes, into places.
ghost use Rattle.std.specs.Prelude.{◌≡◌, ◌+◌, ◌-◌, ◌*◌, ◌≤◌, ◌<◌, min, length};
ghost use Rattle.rules.specs.Bits.{put, tabulate};
ghost use Rattle.rules.specs.Answer.Outcome.{outcome};
ghost use Rattle.rules.specs.Vertical as Vertical;
ghost use Rattle.rules.specs.Refusals.{answer_of};

use answers::judge_room;
use limits::judge_unsigned;
use rules::Refusal;
use vertical_scan::groups::entries_in_group;
use vertical_scan::judging::judge_page;
use vertical_turn::unpacking::unpack_group;

// Group g, from its own planes into its own places.
fn unpack_one(words: &[u64], w: usize, n: usize, g: usize, entries: &mut [u32])
    requires { (w ≤ 32) × (n ≤ 16384) × (64 * g < n) × (g * w + w ≤ length words.now)
        × (n ≤ length entries.old) }
    ensures { entries.new
        ≡ put entries.old (64 * g)
        (tabulate (min 64 (n - 64 * g)) (Vertical.lane words.now (g * w) w)) }
{
    let at = g * w;
    let end = at + w;
    let from = 64 * g;
    unpack_group(
        &words[at..end],
        entries_in_group(n, g),
        &mut entries[from..],
    );
}

fn unpack_groups(words: &[u64], w: usize, n: usize, entries: &mut [u32])
    requires { (w ≤ 32) × (n ≤ 16384) × (length words.now ≡ Vertical.page_words w n)
        × (n ≤ length entries.old) }
    ensures { entries.new
        ≡ put entries.old 0 (tabulate n (Vertical.entry words.now w)) }
{
    for g in 0..(n + 63) / 64 {
        unpack_one(words, w, n, g, entries);
    }
}

// How many entries were put.
pub fn unpack(words: &[u64], width: u32, n: usize, entries: &mut [u32]) -> Result<u32, Refusal>
    ensures { outcome (answer_of result) entries.new
        ≡ Vertical.unpack words.now width n entries.old }
{
    judge_unsigned(width, n)?;
    judge_room(entries.len(), n)?;
    judge_page(words, width, n)?;
    unpack_groups(words, width as usize, n, entries);
    Ok(n as u32)
}
