// Which seconds, an entry each, stand on which page: 16,384 on every page but the last.
ghost use Rattle.std.specs.Prelude.{◌≡◌, ◌*◌, ◌-◌, min, max};
ghost use Rattle.rules.specs.Bits.{ceil};

// Entries of every page but the last.
pub const FULL: usize = 16384;

// The first entry of page k, of at most 1,024 pages.
pub fn start_of(k: usize) -> usize
    ensures { result ≡ min k 1024 * 16384 }
{
    k.min(1024) * FULL
}

// How many of the column's entries page k has.
pub fn entries_of(k: usize, entries: usize) -> usize
    ensures { result ≡ min (entries - min k 1024 * 16384) 16384 }
{
    entries.saturating_sub(start_of(k)).min(FULL)
}

// How many pages so many entries need: at least one, which may be empty.
pub fn needed(entries: usize) -> usize
    ensures { result ≡ max (ceil entries 16384) 1 }
{
    entries.div_ceil(FULL).max(1)
}

// How many bytes of a bitmap n entries have.
pub fn bitmap_bytes(n: usize) -> usize
    ensures { result ≡ ceil n 8 }
{
    n.div_ceil(8)
}
