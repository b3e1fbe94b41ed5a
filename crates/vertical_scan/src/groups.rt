// The groups of a column.
ghost use Rattle.std.specs.Prelude.{◌≡◌, ◌-◌, ◌*◌, ◌≤◌, min};

// How many entries of group g are below n.
pub fn entries_in_group(n: usize, g: usize) -> usize
    requires { 64 * g ≤ n }
    ensures { result ≡ min 64 (n - 64 * g) }
{
    (n - 64 * g).min(64)
}
