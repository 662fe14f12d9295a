//! The version of the library.

ghost use Rattle.std.specs.Prelude.{◌≡◌};

/// The version of the library: ten thousand for the first number, a hundred for the second, one for the third. This is 0.2.0.
#[unsafe(no_mangle)]
pub extern "C" fn rtv_version() -> u32
    ensures { result ≡ 200 }
{
    200
}
