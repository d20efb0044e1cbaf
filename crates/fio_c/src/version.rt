//! The version of the library.
ghost use Rattle.std.specs.Prelude.{◌≡◌};
ghost use Rattle.fio_c.specs.Version.{version_number};

/// Returns the version of this library as one number: 10,000 for each major version, 100 for each
/// minor one, 1 for each patch.
#[unsafe(no_mangle)]
pub extern "C" fn fio2070_version() -> u32
    ensures { result ≡ version_number 1 0 0 }
{
    10_000
}
