// How many bytes a run takes, and a whole stream.
ghost use Rattle.std.specs.Prelude.{◌≡◌, ◌≤◌, length};
ghost use Rattle.rules.specs.RunWriter as RunWriter;
ghost use Rattle.runs_write.specs.Sizes.{run_size};

use crate::stretches::{next_run, taken};
use rules::Next;
use varints::writing::size_of;

// The header, and one value or w bytes a group.
fn run_size(next: Next, w: u32) -> usize
    requires { (w ≤ 32) × (RunWriter.taken next ≤ 16391) }
    ensures { result ≡ run_size w next }
{
    match next {
        Next::Repeats(count) => size_of((2 * count) as u32) + (w as usize + 7) / 8,
        Next::Packs(groups) => size_of((2 * groups + 1) as u32) + w as usize * groups,
    }
}

// The stream of the entries, run by run.
pub fn stream_size(entries: &[u32], w: u32) -> usize
    requires { (w ≤ 32) × (length entries.now ≤ 16384) }
    ensures { result ≡ length (RunWriter.stream w entries.now) }
{
    let mut size: usize = 0;
    let mut p: usize = 0;
    while p < entries.len() {
        let next = next_run(entries, p);
        size += run_size(next, w);
        p += taken(next);
    }
    size
}
