// What an operator number and two constants come to.
ghost use Rattle.std.specs.Prelude.{◌≡◌};
ghost use Rattle.compare.specs.Band.{band, band_of};

// The eight operators are one test: from low to high with both ends, or where `outside` holds all others.
#[derive(Clone, Copy)]
pub struct Band {
    pub low: i64,
    pub high: i64,
    pub outside: bool,
}

// The band of an operator, if there is one of this number. Less is outside from a up, and greater outside from a down,
// so that no a + 1 is computed.
pub fn band_of(op: u32, a: i64, b: i64) -> Option<Band>
    ensures { result ≡ band_of op a b }
{
    let (low, high, outside) = match op {
        0 => (a, a, false),
        1 => (a, a, true),
        2 => (a, i64::MAX, true),
        3 => (i64::MIN, a, false),
        4 => (i64::MIN, a, true),
        5 => (a, i64::MAX, false),
        6 => (a, b, false),
        7 => (a, b, true),
        8.. => return None,
    };
    Some(Band { low, high, outside })
}
