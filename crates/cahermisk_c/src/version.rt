// The library's version, which include/cahermisk.h and rust/Cargo.toml have too.
ghost use Rattle.std.specs.Prelude.{◌≡◌};
ghost use Rattle.cahermisk.specs.Version.{numbered};

use cahermisk::version;

#[unsafe(no_mangle)]
pub extern "C" fn cahermisk_version() -> u32
    ensures { result ≡ numbered 0 4 0 }
{
    version::cahermisk_version()
}
