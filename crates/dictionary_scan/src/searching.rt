// The constants' places among the values of a dictionary, and the range of indexes that a band selects.
ghost use Rattle.std.specs.Prelude.{◌≡◌};
ghost use Rattle.rules.specs.Dictionary.{dictionary_fault};
ghost use Rattle.dictionary_scan.specs.ValuePlaces.{precedes, place_of, index_range};

use crate::values::value_at;
use compare::bands::Band;
use compare::ranges::{Range, range_to};

// Is x below z, or where `equal` counts too at most z.
fn is_before(x: i32, z: i64, equal: bool) -> bool
    ensures { result ≡ precedes equal z x }
{
    let x = i64::from(x);
    if equal { x <= z } else { x < z }
}

// How many values are below z, or where `equal` counts too at most z: they ascend, so those are the first.
fn place_of(dict: &[u8], z: i64, equal: bool) -> usize
    requires { dictionary_fault dict.now ≡ 0 }
    ensures { result ≡ place_of equal dict.now z }
{
    let (values, _) = dict.as_chunks::<4>();
    values.partition_point(|value| is_before(value_at(value, 0), z, equal))
}

// The indexes whose values the band selects: from the first value that is not below its low end, up to
// those at most its high end.
pub fn index_range(dict: &[u8], band: Band) -> Range
    requires { dictionary_fault dict.now ≡ 0 }
    ensures { result ≡ index_range dict.now band }
{
    let from = place_of(dict, band.low, false);
    let to = place_of(dict, band.high, true);
    range_to(from as u64, to as u64, band.outside)
}
