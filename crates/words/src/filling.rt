// One value into all places: what the library's `fill` does, whose loop stores the last place by itself and is
// slower over few places.
ghost use Rattle.std.specs.Prelude.{◌≡◌, length, replicate};

pub fn fill<T: Copy>(places: &mut [T], value: T)
    ensures { places.new ≡ replicate (length places.old) value }
{
    for place in places.iter_mut() {
        *place = value;
    }
}
