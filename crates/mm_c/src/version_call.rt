//! The version of the library.
ghost use Rattle.std.specs.Prelude.{◌≡◌};
ghost use Rattle.mm_c.specs.declared.version_call.TheConstants.{VERSION};

/// The version: 10,000 times the first number, 100 times the second, and the third.
const VERSION: u32 = 10_100;

/// Returns the version of the library, which a program compares with that of its header.
#[unsafe(no_mangle)]
pub extern "C" fn pearoar_mm_version() -> u32
    ensures { result ≡ VERSION }
{
    VERSION
}
