// Each run of a stream fills its own places.
ghost use Rattle.std.specs.Prelude.{◌≡◌, ◌≤◌, length};
ghost use Rattle.runs_walk.specs.Placed.{places, places-values, placed};

use packed_entries::unpacking::unpack;
use runs_walk::walking::{RunWriting, write_runs};
use words::filling::fill;

// Into the places of the entries, as they are.
#[derive(Clone, Copy)]
struct Places;

impl RunWriting for Places {
    type Out = u32;

    ghost each = { 1 };

    ghost Sound = { λ _. Unit };

    ghost write = { λ _. places (λ x. x) };

    ghost of_values = { λ _. places-values (λ x. x) };

    fn write_same(self, value: u32, m: usize, entries: &mut [u32], i: usize) {
        fill(&mut entries[i..i + m], value);
    }

    fn write_packed(
        self,
        page: &[u8],
        start: usize,
        w: usize,
        m: usize,
        entries: &mut [u32],
        i: usize,
    ) {
        unpack(&page[start..], w as u32, m, &mut entries[i..]);
    }
}

// All runs, in turn; a fault ends the pass.
pub fn place_runs(page: &[u8], w: u32, n: usize, entries: &mut [u32])
    requires { (w ≤ 32) × (n ≤ 16384) × (n ≤ length entries.old) }
    ensures { entries.new
        ≡ placed (λ x. x) w n page.now entries.old }
{
    write_runs(Places, page, w as usize, n, entries);
}
