ghost use Rattle.std.specs.Prelude.{◌≡◌};

/// Returns the version of the structs and calls: `MINIDUMP_VERSION` of the header that this library
/// is for.
#[unsafe(no_mangle)]
pub extern "C" fn minidump_version() -> u32
    ensures { result ≡ 6 }
{
    6
}
