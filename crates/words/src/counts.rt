// How many there are: of what is left, and of what is taken.
ghost use Rattle.std.specs.Prelude.{◌≡◌, ◌-◌, min};

// How many are still left where some are taken; where these are more than there were, none.
pub fn left_after(left: usize, taken: usize) -> usize
    ensures { result ≡ left - taken }
{
    if left < taken {
        return 0;
    }
    left - taken
}

// How many of some are among those that are left.
pub fn min(some: usize, left: usize) -> usize
    ensures { result ≡ min some left }
{
    if left < some {
        return left;
    }
    some
}
