// Where runs begin and end.
ghost use Rattle.std.specs.Prelude.{◌≡◌, ◌≤◌, drop};
ghost use Rattle.rules.specs.RunWriter.{stretch, groups_of, next_run};
ghost use Rattle.rules.specs.RunWriter as RunWriter;

use rules::Next;

// How many equal entries there are from place p on; none past the end.
fn stretch_at(entries: &[u32], p: usize) -> usize
    ensures { result ≡ stretch (drop p entries.now) }
{
    let Some(first) = entries.get(p) else {
        return 0;
    };
    entries[p..]
        .iter()
        .take_while(|entry| *entry == first)
        .count()
}

// How many groups a packed run from place p on takes: to the next repeated run, or the end, or 63.
fn groups_at(entries: &[u32], p: usize) -> usize
    requires { p ≤ 16384 }
    ensures { result ≡ groups_of 63 (drop p entries.now) }
{
    for groups in 0..63 {
        let at = p + 8 * groups;
        if entries.len() <= at || 8 <= stretch_at(entries, at) {
            return groups;
        }
    }
    63
}

// The run that begins at place p.
pub fn next_run(entries: &[u32], p: usize) -> Next
    requires { p ≤ 16384 }
    ensures { result ≡ next_run (drop p entries.now) }
{
    let count = stretch_at(entries, p);
    if 8 <= count {
        Next::Repeats(count)
    } else {
        Next::Packs(groups_at(entries, p))
    }
}

// How many entries a run takes, 8 a group; the last group may pass the 16384 by 7.
pub fn taken(next: Next) -> usize
    requires { RunWriter.taken next ≤ 16391 }
    ensures { result ≡ RunWriter.taken next }
{
    match next {
        Next::Repeats(count) => count,
        Next::Packs(groups) => 8 * groups,
    }
}
