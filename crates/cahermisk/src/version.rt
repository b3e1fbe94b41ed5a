// The library's version, which include/cahermisk.h and rust/Cargo.toml have too.
ghost use Rattle.std.specs.Prelude.{◌≡◌};
ghost use Rattle.cahermisk.specs.Version.{numbered};

pub fn cahermisk_version() -> u32
    ensures { result ≡ numbered 0 4 0 }
{
    4000
}
