// How many places to lend, for callers that cannot use the header's macros.
ghost use Rattle.std.specs.Prelude.{◌≡◌};
ghost use Rattle.rules.specs.Answer.{count_fault};
ghost use Rattle.cahermisk.specs.Rooms.{bitmap_bytes, delta_bytes, horizontal_bytes, runs_bytes};
ghost use Rattle.cahermisk.specs.Rooms.{spans_places, unless, vertical_words};

use cahermisk::rooms;

#[unsafe(no_mangle)]
pub extern "C" fn cahermisk_bitmap_bytes(n: usize) -> usize
    ensures { result ≡ bitmap_bytes n }
{
    rooms::cahermisk_bitmap_bytes(n)
}

#[unsafe(no_mangle)]
pub extern "C" fn cahermisk_horizontal_bytes(width: u32, n: usize) -> usize
    ensures { result ≡ horizontal_bytes width n }
{
    rooms::cahermisk_horizontal_bytes(width, n)
}

#[unsafe(no_mangle)]
pub extern "C" fn cahermisk_vertical_words(width: u32, n: usize) -> usize
    ensures { result ≡ vertical_words width n }
{
    rooms::cahermisk_vertical_words(width, n)
}

#[unsafe(no_mangle)]
pub extern "C" fn cahermisk_runs_bytes(width: u32, n: usize) -> usize
    ensures { result ≡ runs_bytes width n }
{
    rooms::cahermisk_runs_bytes(width, n)
}

#[unsafe(no_mangle)]
pub extern "C" fn cahermisk_delta_bytes(n: usize) -> usize
    ensures { result ≡ delta_bytes n }
{
    rooms::cahermisk_delta_bytes(n)
}

#[unsafe(no_mangle)]
pub extern "C" fn cahermisk_spans_places(n: usize) -> usize
    ensures { result ≡ spans_places n }
{
    rooms::cahermisk_spans_places(n)
}
