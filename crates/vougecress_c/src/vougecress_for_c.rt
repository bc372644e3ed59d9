// The version of the library for callers in C, whose functions stand in the crates for C (docs/CRATES.md).
// include/vougecress.h documents each function for its caller.

ghost use Rattle.std.specs.Prelude.{◌≡◌};
ghost use Rattle.vougecress.specs.Version.{library_version};

// The version that was built, for a caller to hold against the header's.
#[unsafe(no_mangle)]
pub extern "C" fn vougecress_version() -> u32
    ensures { result ≡ library_version }
{
    vougecress::vougecress_version()
}
