// All runs of a stream, in turn: each writes its entries behind those of the runs before it.
ghost use Rattle.std.specs.Prelude.{◌≡◌, ℕ, List, ◌+◌, ◌*◌, ◌≤◌, ◌<◌, length};
ghost use Rattle.rules.specs.Bits.{ceil, field};
ghost use Rattle.rules.specs.Bits.Order.{low_first};
ghost use Rattle.runs_read.specs.TwoPasses.{pass};
ghost use Rattle.runs_walk.specs.Covered.{written};
ghost use Rattle.runs_walk.specs.CountedTurns.{OfValues};

use runs_read::plain::{Found, found_at};

// A way of writing the entries of runs.
pub trait RunWriting: Copy {
    // What holds the entries: places, or bytes of the bitmap.
    type Out;

    // How many entries one of them holds.
    ghost each: { ℕ };

    // What is asked before anything is written.
    ghost Sound: { Self → Type 0 };

    // What m values leave, written as the entries i, i + 1, ..
    ghost write: { Self → ℕ → ℕ → (ℕ → ℕ) → List Self.Out → List Self.Out };

    // A repeated run's m entries.
    fn write_same(self, value: u32, m: usize, out: &mut [Self::Out], i: usize)
        requires { Sound self × (0 < m) × (m ≤ 16384) × (i + m ≤ each * length out.old) }
        ensures { out.new ≡ write self i m (λ _. value) out.old };

    // The first m entries of the packed run whose body begins at byte `start`.
    fn write_packed(
        self,
        page: &[u8],
        start: usize,
        w: usize,
        m: usize,
        out: &mut [Self::Out],
        i: usize,
    )
        requires { Sound self × (w ≤ 32) × (0 < m) × (m ≤ 16384) × (i ≤ 16384)
            × (start + ceil (m * w) 8 ≤ length page.now) × (i + m ≤ each * length out.old) }
        ensures { out.new
            ≡ write self i m (λ k. field low_first page.now (8 * start + k * w) w) out.old };

    // Nothing but the m values decides what they leave.
    ghost of_values: { (writing : Self) → OfValues (write writing) };
}

// A fault ends the pass.
pub fn write_runs<T: RunWriting>(writing: T, page: &[u8], w: usize, n: usize, out: &mut [T::Out])
    requires { T.Sound writing × (w ≤ 32) × (n ≤ 16384) × (n ≤ T.each * length out.old) }
    ensures { out.new ≡ pass (written n (T.write writing) w) w n page.now out.old }
{
    let mut at: usize = 0;
    let mut i: usize = 0;
    while i < n {
        match found_at(page, at, w, n - i) {
            Found::Repeated { count, value, next } => {
                writing.write_same(value, count, out, i);
                i += count;
                at = next;
            }
            Found::Packed {
                groups,
                start,
                next,
            } => {
                writing.write_packed(page, start, w, (8 * groups).min(n - i), out, i);
                i += 8 * groups;
                at = next;
            }
            Found::Refused(_) => {
                return;
            }
        }
    }
}
