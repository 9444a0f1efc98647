//! The version of the library.
ghost use Rattle.std.specs.Prelude.{◌≡◌};

/// Returns the version of the library: 10000 times its first number, 100 times its second, and its
/// third, added. This name is the same in all versions.
#[unsafe(no_mangle)]
pub extern "C" fn romtool_library_version() -> u32
    ensures { result ≡ 20000 }
{
    20_000
}
