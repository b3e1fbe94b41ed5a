// The loop that all kernels share: what differs is how the eight entries of a group are tested.
ghost use Rattle.std.specs.Prelude.{ℕ, ◌≡◌, ◌+◌, ◌*◌, ◌≤◌, length};
ghost use Rattle.rules.specs.Bits.{word, put, field};
ghost use Rattle.rules.specs.Bits.Order.{low_first};
ghost use Rattle.compare.specs.Range.{inside, Flips};
ghost use Rattle.packed_kernels.specs.Selected.{selected, ranging};

pub trait Kernel {
    // What it asks of the width and of the range.
    ghost takes: { ℕ → ℕ → ℕ → Type 0 };

    // How many bytes behind a group of this width its loads reach.
    ghost behind: { ℕ → ℕ };

    // The tests of the eight entries from byte `at` on, a bit for each.
    fn eight(page: &[u8], at: usize, w: usize, low: u32, span: u32) -> u8
        requires { takes w low span × (at + w + behind w ≤ length page.now) }
        ensures { result
            ≡ word 8
            (λ j. inside low (low + span) (field low_first page.now (8 * at + j * w) w)) };
}

// m groups to m bytes of the bitmap. `flip` is 255 where the entries outside are wanted.
pub fn select<K: Kernel>(
    page: &[u8],
    bitmap: &mut [u8],
    m: usize,
    w: usize,
    low: u32,
    span: u32,
    flip: u8,
)
    requires { K.takes w low span × (m * w + K.behind w ≤ length page.now)
        × (m ≤ length bitmap.old) × Flips flip }
    ensures { bitmap.new
        ≡ put bitmap.old 0 (selected page.now (8 * m) w (ranging low span flip)) }
{
    for g in 0..m {
        bitmap[g] = K::eight(page, g * w, w, low, span) ^ flip;
    }
}
