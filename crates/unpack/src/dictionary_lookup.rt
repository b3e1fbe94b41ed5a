// Each run of an index page fills its own places with the values that its indexes stand for.
ghost use Rattle.std.specs.Prelude.{◌≡◌, ◌+◌, ◌*◌, ◌%◌, ◌≤◌, length, get_or};
ghost use Rattle.rules.specs.Bits.{ceil, field, put, tabulate};
ghost use Rattle.rules.specs.Bits.Order.{low_first};
ghost use Rattle.rules.specs.Dictionary.{value};
ghost use Rattle.runs_walk.specs.Placed.{places, places-values, placed};

use dictionary_scan::values::value_any;
use packed_entries::unpacking::unpack;
use runs_walk::walking::{RunWriting, write_runs};
use words::filling::fill;

// The values of the first m indexes of a list, into the first m places.
fn look_up(dict: &[u8], indexes: &[u32], m: usize, places: &mut [i32])
    requires { (length dict.now % 4 ≡ 0) × (m ≤ length indexes.now) × (m ≤ length places.old) }
    ensures { places.new
        ≡ put places.old 0
        (tabulate m (λ k. value dict.now (get_or indexes.now k 0))) }
{
    for (i, place) in places[..m].iter_mut().enumerate() {
        *place = value_any(dict, indexes[i]);
    }
}

// At most 64 packed indexes from byte `from` on, unpacked by groups: their values, into the places from
// place p on.
fn place_part(
    dict: &[u8],
    page: &[u8],
    from: usize,
    w: u32,
    entries: &mut [i32],
    p: usize,
    m: usize,
)
    requires { (length dict.now % 4 ≡ 0) × (w ≤ 32) × (m ≤ 64)
        × (from + ceil (m * w) 8 ≤ length page.now) × (p + m ≤ length entries.old) }
    ensures { entries.new
        ≡ put entries.old p
        (tabulate m
        (λ k. value dict.now (field low_first page.now (8 * from + k * w) w))) }
{
    let mut indexes = [0u32; 64];
    unpack(&page[from..], w, m, &mut indexes);
    look_up(dict, &indexes, m, &mut entries[p..]);
}

// Into the places of the indexes, as the values of a dictionary.
#[derive(Clone, Copy)]
struct Values<'a> {
    dict: &'a [u8],
}

impl<'a> RunWriting for Values<'a> {
    type Out = i32;

    ghost each = { 1 };

    ghost Sound = { λ values. length values.dict.now % 4 ≡ 0 };

    ghost write = { λ values. places (value values.dict.now) };

    ghost of_values = { λ values. places-values (value values.dict.now) };

    fn write_same(self, index: u32, m: usize, entries: &mut [i32], i: usize) {
        fill(&mut entries[i..i + m], value_any(self.dict, index));
    }

    fn write_packed(
        self,
        page: &[u8],
        start: usize,
        w: usize,
        m: usize,
        entries: &mut [i32],
        i: usize,
    ) {
        let mut from = start;
        for k in (0..m).step_by(64) {
            let few = (m - k).min(64);
            place_part(self.dict, page, from, w as u32, entries, i + k, few);
            from += 8 * w;
        }
    }
}

// All runs, in turn; a fault ends the pass.
pub fn look_up_runs(dict: &[u8], page: &[u8], w: u32, n: usize, entries: &mut [i32])
    requires { (length dict.now % 4 ≡ 0) × (w ≤ 32) × (n ≤ 16384) × (n ≤ length entries.old) }
    ensures { entries.new
        ≡ placed (value dict.now) w n page.now entries.old }
{
    write_runs(Values { dict }, page, w as usize, n, entries);
}
