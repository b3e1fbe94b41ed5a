// A list of pairs judged: is it ascending, with an entry left out between two stretches, and below the entry
// count. No pair is left out where one is misplaced already: so several are judged at once.
ghost use Rattle.std.specs.Prelude.{◌≡◌, ◌||◌, ◌+◌, ◌%◌, ◌≤◌, min, length};
ghost use Rattle.rules.specs.Spans.{misplaced};
ghost use Rattle.spans_mark.specs.Covers.{pair_misplaced};

// One pair, where no first number may lie below `from`.
fn pair_misplaced(n: u32, from: u32, first: u32, last: u32) -> bool
    ensures { result ≡ pair_misplaced n from first last }
{
    first < from || last < first || n <= last
}

// The least first number behind a pair; where its last number is past every count, the pair is misplaced
// already, and this one need not be larger.
fn next_from(last: u32) -> u32
    ensures { result ≡ min last 16384 + 2 }
{
    last.min(16384) + 2
}

pub fn is_misplaced(list: &[u32], n: usize) -> bool
    requires { (n ≤ 16384) × (length list.now % 2 ≡ 0) }
    ensures { result ≡ misplaced n 0 list.now }
{
    let mut found = false;
    let mut from: u32 = 0;
    for pair in list.chunks_exact(2) {
        found |= pair_misplaced(n as u32, from, pair[0], pair[1]);
        from = next_from(pair[1]);
    }
    found
}
