//! The version of the library.

ghost use Rattle.std.specs.Prelude.{◌≡◌};

/// The version, as `10000 * major + 100 * minor + patch`.
#[unsafe(no_mangle)]
pub extern "C" fn sandpile_version() -> u32
    ensures { result ≡ 10000 }
{
    10000
}
